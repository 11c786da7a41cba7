//! Lists on their way home at a filter that keeps none.
ghost use Rattle.std.specs.Prelude.{◌≡◌, []};
ghost use Rattle.buffer_pools.specs.Views.{IsOf};
ghost use Rattle.driver_calls.specs.Rooms.{HasRoomFor};
ghost use Rattle.driver_calls.specs.Filters.{Completes};
ghost use Rattle.frame_filters.specs.Filters.{keeping};

use buffer_pools::BufferList;
use driver_tray::Tray;
use ndis_base::ListStatus;

/// A filter that keeps no list passes another module's list homewards, and takes a list of its own home.
pub fn pass_home(list: BufferList, status: ListStatus, tray: &mut Tray)
    requires own { list.label.owner ≡ tray.old.caller → IsOf tray.old.pool list }
    requires room { HasRoomFor 2 1 tray.old }
    ensures { Completes (keeping []) list status tray.old [] tray.new }
{
    if list.owner() == tray.caller() {
        tray.spend(list, status);
    } else {
        tray.pass_back(list, status);
    }
}
