//! A list is lent to one filter.
ghost use Rattle.std.specs.Prelude.{◌≡◌, ◌<◌, ◌≤◌, None, Some, length, map, slice_set, slice_index_or};
ghost use Rattle.ndis_base.specs.declared.ModuleId.TheVariants.{Filter};
ghost use Rattle.book_lemmas.specs.Views.{filter_at, pool_at};
ghost use Rattle.driver_calls.specs.declared.fates.LentFate.{LentFate};
ghost use Rattle.driver_tray.specs.Tray.{given};
ghost use Rattle.lend_work.specs.Visits.{MayVisit, Meets, Takes, Visits, VisitsAt, went_by, settled, refused, bench};

use buffer_pools::{BufferList, ListPool};
use driver_calls::{FilterCalls, LentFate};
use driver_tray::Tray;
use flat_journal::FlatRow;
use journal_types::Handler;
use ndis_base::{ListStatus, ModuleId, ModuleState};

/// Writes that the module that is called turns a lent list back.
pub(crate) fn refuse(tray: &mut Tray, list: &BufferList, status: ListStatus) -> ListStatus
    requires { 1 ≤ tray.old.room.rows }
    ensures tray { tray.new ≡ refused tray.old list.now status }
    ensures status { result ≡ status }
{
    let caller = tray.caller();
    tray.write(FlatRow::TurnBack {
        list: list.number(),
        module: caller,
        status,
    });
    status
}

/// Writes what the filter that was called made of the list: with which status the list goes home, or None where
/// it goes further up.
fn settle(tray: &mut Tray, list: &BufferList, became: LentFate) -> Option<ListStatus>
    requires { 1 ≤ tray.old.room.rows }
    ensures tray { tray.new ≡ settled tray.old list.now became }
    ensures went { result ≡ went_by became }
{
    match became {
        LentFate::Left => None,
        LentFate::Dropped => Some(refuse(tray, list, ListStatus::Dropped)),
        LentFate::Lacking => Some(refuse(tray, list, ListStatus::Resources)),
        LentFate::Copied => Some(ListStatus::Success),
    }
}

/// Lends a list to a filter that runs, whose pool is in the tray.
fn lend_running<F: FilterCalls>(
    filter: &mut F,
    tray: &mut Tray,
    list: &BufferList,
) -> Option<ListStatus>
    requires may { MayVisit (F.state filter.old) list.now tray.old tray.old.pool }
    requires room { 1 ≤ F.room filter.old }
    ensures takes { Takes (F.state filter.old) list.now tray.old result (F.state filter.new) tray.new }
    ensures room { result ≡ None → F.room filter.old ≤ F.room filter.new }
{
    tray.give(list.number(), Handler::ReceiveLent);
    let became = filter.receive_lent(list, tray);
    settle(tray, list, became)
}

/// Lends a list to a filter whose pool is in the tray.
fn lend_called<F: FilterCalls>(
    filter: &mut F,
    tray: &mut Tray,
    f: u64,
    list: &BufferList,
) -> Option<ListStatus>
    requires caller { tray.old.caller ≡ Filter f }
    requires may { MayVisit (F.state filter.old) list.now tray.old tray.old.pool }
    requires room { 1 ≤ F.room filter.old }
    ensures meets { Meets (F.state filter.old) list.now tray.old result (F.state filter.new) tray.new }
    ensures room { result ≡ None → F.room filter.old ≤ F.room filter.new }
{
    match tray.state_of(ModuleId::Filter(f)) {
        ModuleState::Running => lend_running(filter, tray, list),
        _ => Some(refuse(tray, list, ListStatus::Paused)),
    }
}

/// Lends a list to a filter, with its pool. It answers with which status the list goes home, or None where it
/// goes further up.
fn lend_to<F: FilterCalls>(
    filter: &mut F,
    tray: &mut Tray,
    pool: &mut ListPool,
    f: u64,
    list: &BufferList,
) -> Option<ListStatus>
    requires may { MayVisit (F.state filter.old) list.now tray.old pool.old }
    requires room { 1 ≤ F.room filter.old }
    ensures visits { Visits f list.now (F.state filter.old) tray.old pool.old result (F.state filter.new) tray.new pool.new }
    ensures room { result ≡ None → F.room filter.old ≤ F.room filter.new }
{
    tray.set_caller(ModuleId::Filter(f));
    tray.exchange_pool(pool);
    let went = lend_called(filter, tray, f, list);
    tray.exchange_pool(pool);
    went
}

/// The same at the filter's place.
pub(crate) fn lend_at<F: FilterCalls>(
    filters: &mut Vec<F>,
    tray: &mut Tray,
    pools: &mut Vec<ListPool>,
    place: usize,
    f: u64,
    list: &BufferList,
) -> Option<ListStatus>
    requires filters { place < length filters.old.items }
    requires pools { place < length pools.old.items }
    requires may { MayVisit (filter_at (map F.state filters.old.items) (Some place)) list.now tray.old (pool_at pools.old.items (Some place)) }
    requires room { 1 ≤ slice_index_or (map F.room filters.old.items) place 0 }
    ensures visits { VisitsAt f place list.now (bench (map F.state filters.old.items) pools.old.items tray.old) result (bench (map F.state filters.new.items) pools.new.items tray.new) }
    ensures rooms { map F.room filters.new.items ≡ slice_set (map F.room filters.old.items) place (slice_index_or (map F.room filters.new.items) place 0) }
    ensures room { result ≡ None → 1 ≤ slice_index_or (map F.room filters.new.items) place 0 }
{
    lend_to(&mut filters[place], tray, &mut pools[place], f, list)
}
