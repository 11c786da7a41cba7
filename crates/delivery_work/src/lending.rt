//! A list is delivered to one binding after the other.
ghost use Rattle.std.specs.Prelude.{◌≡◌, ◌<◌, ◌≤◌, ◌+◌, length, map, slice_set, slice_index_or};
ghost use Rattle.std.specs.List.{AllWithin};
ghost use Rattle.book_lemmas.specs.Views.{no_pool, no_protocol};
ghost use Rattle.binding_work.specs.Owns.{MayLend, MayOwn};
ghost use Rattle.delivery_work.specs.Takers.{takers_from};
ghost use Rattle.delivery_work.specs.Desks.{desk, LendsAt, OwnsAt, Delivers, MayDeliver};

use crate::taking::next_taker;
use binding_work::lends::lend_to;
use binding_work::owns::own_to;
use buffer_pools::{BufferList, ListPool};
use driver_calls::ProtocolCalls;
use driver_tray::Tray;

/// Lends a list to the protocol of a binding, at its place.
fn lend_at<P: ProtocolCalls>(
    protocols: &mut Vec<P>,
    tray: &mut Tray,
    pools: &mut Vec<ListPool>,
    binding: u32,
    list: &BufferList,
)
    requires protocols { binding < length protocols.old.items }
    requires pools { binding < length pools.old.items }
    requires may { MayLend (slice_index_or (map P.state protocols.old.items) binding no_protocol) list.now tray.old (slice_index_or pools.old.items binding no_pool) }
    requires room { 1 ≤ slice_index_or (map P.room protocols.old.items) binding 0 }
    ensures lends { LendsAt binding list.now (desk (map P.state protocols.old.items) pools.old.items tray.old) (desk (map P.state protocols.new.items) pools.new.items tray.new) }
    ensures rooms { map P.room protocols.new.items ≡ slice_set (map P.room protocols.old.items) binding (slice_index_or (map P.room protocols.new.items) binding 0) }
{
    lend_to(
        &mut protocols[binding as usize],
        tray,
        &mut pools[binding as usize],
        binding,
        list,
    );
}

/// Delivers a list to the protocol of a binding as its own, at its place.
fn own_at<P: ProtocolCalls>(
    protocols: &mut Vec<P>,
    tray: &mut Tray,
    pools: &mut Vec<ListPool>,
    binding: u32,
    list: BufferList,
)
    requires protocols { binding < length protocols.old.items }
    requires pools { binding < length pools.old.items }
    requires may { MayOwn (slice_index_or (map P.state protocols.old.items) binding no_protocol) list tray.old (slice_index_or pools.old.items binding no_pool) }
    requires room { 1 ≤ slice_index_or (map P.room protocols.old.items) binding 0 }
    ensures { OwnsAt binding list (desk (map P.state protocols.old.items) pools.old.items tray.old) (desk (map P.state protocols.new.items) pools.new.items tray.new) }
{
    own_to(
        &mut protocols[binding as usize],
        tray,
        &mut pools[binding as usize],
        binding,
        list,
    );
}

/// Delivers a list to a binding and to all after it that take it, of so many bindings: it is lent to all
/// but the last one (WDK, "Receiving Data in Protocol Drivers").
pub fn deliver_each<P: ProtocolCalls>(
    protocols: &mut Vec<P>,
    tray: &mut Tray,
    pools: &mut Vec<ListPool>,
    list: BufferList,
    first: u32,
    many: u32,
)
    requires all { many ≡ length protocols.old.items }
    requires may { MayDeliver first list (desk (map P.state protocols.old.items) pools.old.items tray.old) }
    requires rooms { AllWithin (λ r. 1 ≤ r) (map P.room protocols.old.items) first many }
    ensures { Delivers list first (takers_from tray.old.net list.frames (first + 1) many) (desk (map P.state protocols.old.items) pools.old.items tray.old) (desk (map P.state protocols.new.items) pools.new.items tray.new) }
{
    match next_taker(tray, &list, first + 1, many) {
        Some(next) => {
            lend_at(protocols, tray, pools, first, &list);
            deliver_each(protocols, tray, pools, list, next, many);
        }
        None => own_at(protocols, tray, pools, first, list),
    }
}
