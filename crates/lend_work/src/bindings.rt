//! A lent list at the bindings.
ghost use Rattle.std.specs.Prelude.{◌≡◌, ◌<◌, ◌≤◌, length, map, slice_set, slice_index_or};
ghost use Rattle.std.specs.List.{AllWithin};
ghost use Rattle.ndis_base.specs.declared.ListStatus.TheVariants.{Paused};
ghost use Rattle.book_lemmas.specs.Views.{no_pool, no_protocol};
ghost use Rattle.binding_work.specs.Owns.{MayLend};
ghost use Rattle.delivery_work.specs.Takers.{takers_from};
ghost use Rattle.delivery_work.specs.Desks.{desk, LendsAt};
ghost use Rattle.lend_work.specs.Bindings.{LendsFrom, MayLendFrom, Arrives, turned_back_at};

use crate::visits::refuse;
use binding_work::lends::lend_to;
use buffer_pools::{BufferList, ListPool};
use delivery_work::taking::next_taker;
use driver_calls::ProtocolCalls;
use driver_tray::Tray;
use ndis_base::{ListStatus, ModuleId, Phase};

/// Lends a list to the protocol of a binding, at its place.
fn lend_at<P: ProtocolCalls>(
    protocols: &mut Vec<P>,
    tray: &mut Tray,
    pools: &mut Vec<ListPool>,
    binding: u32,
    list: &BufferList,
)
    requires protocols { binding < length protocols.old.items }
    requires pools { binding < length pools.old.items }
    requires may { MayLend (slice_index_or (map P.state protocols.old.items) binding no_protocol) list.now tray.old (slice_index_or pools.old.items binding no_pool) }
    requires room { 1 ≤ slice_index_or (map P.room protocols.old.items) binding 0 }
    ensures lends { LendsAt binding list.now (desk (map P.state protocols.old.items) pools.old.items tray.old) (desk (map P.state protocols.new.items) pools.new.items tray.new) }
    ensures rooms { map P.room protocols.new.items ≡ slice_set (map P.room protocols.old.items) binding (slice_index_or (map P.room protocols.new.items) binding 0) }
{
    lend_to(
        &mut protocols[binding as usize],
        tray,
        &mut pools[binding as usize],
        binding,
        list,
    );
}

/// Lends a list to each binding from this one on that takes it, of so many bindings.
fn lend_each<P: ProtocolCalls>(
    protocols: &mut Vec<P>,
    tray: &mut Tray,
    pools: &mut Vec<ListPool>,
    list: &BufferList,
    from: u32,
    many: u32,
)
    requires all { many ≡ length protocols.old.items }
    requires may { MayLendFrom from list.now (desk (map P.state protocols.old.items) pools.old.items tray.old) }
    requires rooms { AllWithin (λ r. 1 ≤ r) (map P.room protocols.old.items) from many }
    ensures { LendsFrom list.now from (takers_from tray.old.net list.now.frames from many) (desk (map P.state protocols.old.items) pools.old.items tray.old) (desk (map P.state protocols.new.items) pools.new.items tray.new) }
{
    match next_taker(tray, list, from, many) {
        Some(binding) => {
            lend_at(protocols, tray, pools, binding, list);
            lend_each(protocols, tray, pools, list, binding + 1, many);
        }
        None => {}
    }
}

/// Turns a list back at the first binding.
fn turn_back(tray: &mut Tray, pool: &mut ListPool, list: &BufferList) -> ListStatus
    requires { 1 ≤ tray.old.room.rows }
    ensures tray { tray.new ≡ turned_back_at tray.old pool.old list.now }
    ensures pool { pool.new ≡ pool.old }
    ensures status { result ≡ Paused }
{
    tray.set_caller(ModuleId::Binding(0));
    tray.exchange_pool(pool);
    let status = refuse(tray, list, ListStatus::Paused);
    tray.exchange_pool(pool);
    status
}

/// Lends a list to each binding that takes it, of so many; or turns it back, where the stack doesn't run. It answers with
/// which status the list goes home.
pub(crate) fn arrive<P: ProtocolCalls>(
    protocols: &mut Vec<P>,
    tray: &mut Tray,
    pools: &mut Vec<ListPool>,
    list: &BufferList,
    many: u32,
) -> ListStatus
    requires all { many ≡ length protocols.old.items }
    requires some { 1 ≤ many }
    requires may { MayLendFrom 0 list.now (desk (map P.state protocols.old.items) pools.old.items tray.old) }
    requires pools { many ≡ length pools.old.items }
    requires room { 1 ≤ tray.old.room.rows }
    requires rooms { AllWithin (λ r. 1 ≤ r) (map P.room protocols.old.items) 0 many }
    ensures { Arrives many list.now (desk (map P.state protocols.old.items) pools.old.items tray.old) result (desk (map P.state protocols.new.items) pools.new.items tray.new) }
{
    match tray.phase() {
        Phase::Running => {
            lend_each(protocols, tray, pools, list, 0, many);
            ListStatus::Success
        }
        _ => turn_back(tray, &mut pools[0], list),
    }
}
