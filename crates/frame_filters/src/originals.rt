//! Clones on their way home, and the lists that were kept for them.
ghost use Rattle.std.specs.Prelude.{◌≡◌, None, Some};
ghost use Rattle.buffer_pools.specs.Views.{IsOf, ListView};
ghost use Rattle.driver_calls.specs.Rooms.{HasRoomFor};
ghost use Rattle.driver_calls.specs.Filters.{Completes, original_of};
ghost use Rattle.frame_filters.specs.Filters.{keeping};
ghost use Rattle.frame_filters.specs.Originals.{TakesOriginal};

use buffer_pools::BufferList;
use driver_tray::Tray;
use kept_lists::KeptLists;
use ndis_base::{ListStatus, Origin};

// The list of whose frames a list has a clone, where it is kept.
#[tactic(auto, using(crate::proofs::Taken::taken_original, crate::proofs::Taken::lacking_original))]
fn take_original(kept: &mut KeptLists, origin: Origin) -> Option<BufferList>
    ensures none { result ≡ None → (original_of origin kept.old.lists ≡ None) × (kept.new.lists ≡ kept.old.lists) }
    ensures some { (l : ListView) → result ≡ Some l → TakesOriginal origin kept.old.lists l kept.new.lists }
{
    match origin {
        Origin::Clone(list) => kept.take(list.0),
        Origin::Root => None,
        Origin::Copy(_) => None,
    }
}

/// A filter passes another module's list homewards. Where a clone of its own is home, the list that it kept goes
/// homewards in its place.
#[tactic(auto, using(crate::proofs::Taken::homes_original, crate::proofs::Taken::homes_alone))]
pub fn take_home(kept: &mut KeptLists, list: BufferList, status: ListStatus, tray: &mut Tray)
    requires own { list.label.owner ≡ tray.old.caller → IsOf tray.old.pool list }
    requires room { HasRoomFor 2 1 tray.old }
    ensures { Completes (keeping kept.old.lists) list status tray.old kept.new.lists tray.new }
{
    if list.owner() != tray.caller() {
        tray.pass_back(list, status);
        return;
    }
    match take_original(kept, list.origin()) {
        Some(original) => {
            tray.spend(list, status);
            tray.pass_back(original, status);
        }
        None => tray.spend(list, status),
    }
}
