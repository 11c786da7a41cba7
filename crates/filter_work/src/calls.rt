//! A filter is called with its pool.
ghost use Rattle.std.specs.Prelude.{◌≡◌, ◌≢◌, ◌≤◌, ◌∷◌, ◌*◌, OnOk, OnErr};
ghost use Rattle.agenda_items.specs.declared.Carried.TheVariants.{List as a_list};
ghost use Rattle.journal_types.specs.declared.PassWay.TheVariants as way;
ghost use Rattle.journal_types.specs.declared.Handler.TheVariants as handler;
ghost use Rattle.ndis_base.specs.declared.ModuleId.TheVariants.{Filter};
ghost use Rattle.promise_rules.specs.declared.Called.TheVariants as called;
ghost use Rattle.driver_tray.specs.Tray.{given};
ghost use Rattle.driver_calls.specs.Filters.{IsHandled, IsCompleted};
ghost use Rattle.filter_work.specs.Works.{Climbs, GoesHome, StartsWithList, MayTake, MayWork, IsRoomed, IsReady, Works, WorksFirst};

use agenda_items::Item;
use buffer_pools::{BufferList, ListPool};
use driver_calls::FilterCalls;
use driver_tray::Tray;
use flat_journal::Room;
use journal_types::{Handler, PassWay, Target};
use ndis_base::{ListStatus, ModuleId, ModuleState, OutOfMemory};

const FAR: u64 = 1 << 60;

/// Makes all room that a list at a filter wants. After want of memory there is at least as much as
/// before.
fn make_room<F: FilterCalls>(filter: &mut F, tray: &mut Tray) -> Result<(), OutOfMemory>
    ensures state { F.state filter.new ≡ F.state filter.old }
    ensures tray { IsRoomed tray.old tray.new }
    ensures filter { OnOk result (1 ≤ F.room filter.new) }
    ensures ready { OnOk result (IsReady (F.state filter.new) tray.new) }
{
    let served = filter.served();
    if served.send >= FAR
        || served.send_complete >= FAR
        || served.receive >= FAR
        || served.returned >= FAR
    {
        return Err(OutOfMemory);
    }
    filter.make_room(1518)?;
    tray.make_room(
        Room {
            turns: 1,
            rows: 4,
            frames: 8,
            bytes: 8 * 1518,
            ..Room::none()
        },
        1,
    )?;
    Ok(())
}

/// Takes the first list that is on its way.
fn take_list(tray: &mut Tray) -> (BufferList, PassWay, Target)
    requires { StartsWithList tray.old.queue }
    ensures { tray.old ≡ record tray.new { queue = a_list result.0 result.1 result.2 ∷ tray.new.queue } }
{
    match tray.dequeue() {
        Some(Item::List { list, way, to }) => (list, way, to),
        Some(Item::Status(_)) => unreachable!(),
        Some(Item::Answer(_answer)) => unreachable!(),
        None => unreachable!(),
    }
}

/// Gives a send on its way down to a filter.
fn send_to<F: FilterCalls>(
    filter: &mut F,
    tray: &mut Tray,
    pool: &mut ListPool,
    f: u64,
    list: BufferList,
)
    requires may { MayTake way.Down f (F.state filter.old) list pool.old }
    requires ready { IsReady (F.state filter.old) tray.old }
    requires room { 1 ≤ F.room filter.old }
    ensures { Works f way.Down (F.state filter.old) list tray.old pool.old (F.state filter.new) tray.new pool.new }
{
    tray.set_caller(ModuleId::Filter(f));
    tray.exchange_pool(pool);
    tray.give(list.number(), Handler::Send);
    filter.send(list, tray);
    tray.exchange_pool(pool);
}

/// Gives a receive on its way up to a filter that runs, whose pool is in the tray.
fn raise_to<F: FilterCalls>(filter: &mut F, tray: &mut Tray, f: u64, list: BufferList)
    requires may { MayTake way.Up f (F.state filter.old) list tray.old.pool }
    requires ready { IsReady (F.state filter.old) tray.old }
    requires room { 1 ≤ F.room filter.old }
    ensures { IsHandled called.Receive (F.state filter.old) list (given tray.old list.label.number handler.Receive) (F.state filter.new) tray.new }
{
    tray.give(list.number(), Handler::Receive);
    filter.receive(list, tray);
}

/// Works a receive on its way up at a filter, whose pool is in the tray.
fn climb_to<F: FilterCalls>(filter: &mut F, tray: &mut Tray, f: u64, list: BufferList)
    requires caller { tray.old.caller ≡ Filter f }
    requires may { MayTake way.Up f (F.state filter.old) list tray.old.pool }
    requires ready { IsReady (F.state filter.old) tray.old }
    requires room { 1 ≤ F.room filter.old }
    ensures { Climbs (F.state filter.old) list tray.old (F.state filter.new) tray.new }
{
    match tray.state_of(ModuleId::Filter(f)) {
        ModuleState::Running => raise_to(filter, tray, f, list),
        _ => tray.turn_back(list, ListStatus::Paused),
    }
}

/// Works a receive on its way up at a filter.
fn receive_to<F: FilterCalls>(
    filter: &mut F,
    tray: &mut Tray,
    pool: &mut ListPool,
    f: u64,
    list: BufferList,
)
    requires may { MayTake way.Up f (F.state filter.old) list pool.old }
    requires ready { IsReady (F.state filter.old) tray.old }
    requires room { 1 ≤ F.room filter.old }
    ensures { Works f way.Up (F.state filter.old) list tray.old pool.old (F.state filter.new) tray.new pool.new }
{
    tray.set_caller(ModuleId::Filter(f));
    tray.exchange_pool(pool);
    climb_to(filter, tray, f, list);
    tray.exchange_pool(pool);
}

/// Gives a send on its way home that another module owns to a filter, whose pool is in the tray.
fn pass_done<F: FilterCalls>(
    filter: &mut F,
    tray: &mut Tray,
    f: u64,
    list: BufferList,
    status: ListStatus,
)
    requires caller { tray.old.caller ≡ Filter f }
    requires other { list.label.owner ≢ Filter f }
    requires may { MayTake (way.Done status) f (F.state filter.old) list tray.old.pool }
    requires ready { IsReady (F.state filter.old) tray.old }
    ensures { IsCompleted called.SendComplete (F.state filter.old) list status (given tray.old list.label.number handler.SendComplete) (F.state filter.new) tray.new }
{
    tray.give(list.number(), Handler::SendComplete);
    filter.send_complete(list, status, tray);
}

/// Works a send on its way home at a filter, whose pool is in the tray.
fn done_at<F: FilterCalls>(
    filter: &mut F,
    tray: &mut Tray,
    f: u64,
    list: BufferList,
    status: ListStatus,
)
    requires caller { tray.old.caller ≡ Filter f }
    requires may { MayTake (way.Done status) f (F.state filter.old) list tray.old.pool }
    requires ready { IsReady (F.state filter.old) tray.old }
    ensures { GoesHome called.SendComplete handler.SendComplete (F.state filter.old) list status tray.old (F.state filter.new) tray.new }
{
    if list.owner() == ModuleId::Filter(f) {
        filter.send_complete(list, status, tray);
    } else {
        pass_done(filter, tray, f, list, status);
    }
}

/// Works a send on its way home at a filter.
fn done_to<F: FilterCalls>(
    filter: &mut F,
    tray: &mut Tray,
    pool: &mut ListPool,
    f: u64,
    list: BufferList,
    status: ListStatus,
)
    requires may { MayTake (way.Done status) f (F.state filter.old) list pool.old }
    requires ready { IsReady (F.state filter.old) tray.old }
    ensures { Works f (way.Done status) (F.state filter.old) list tray.old pool.old (F.state filter.new) tray.new pool.new }
{
    tray.set_caller(ModuleId::Filter(f));
    tray.exchange_pool(pool);
    done_at(filter, tray, f, list, status);
    tray.exchange_pool(pool);
}

/// Gives a receive on its way home that another module owns to a filter, whose pool is in the tray.
fn pass_back<F: FilterCalls>(
    filter: &mut F,
    tray: &mut Tray,
    f: u64,
    list: BufferList,
    status: ListStatus,
)
    requires caller { tray.old.caller ≡ Filter f }
    requires other { list.label.owner ≢ Filter f }
    requires may { MayTake (way.Back status) f (F.state filter.old) list tray.old.pool }
    requires ready { IsReady (F.state filter.old) tray.old }
    ensures { IsCompleted called.Returned (F.state filter.old) list status (given tray.old list.label.number handler.Returned) (F.state filter.new) tray.new }
{
    tray.give(list.number(), Handler::Returned);
    filter.returned(list, status, tray);
}

/// Works a receive on its way home at a filter, whose pool is in the tray.
fn back_at<F: FilterCalls>(
    filter: &mut F,
    tray: &mut Tray,
    f: u64,
    list: BufferList,
    status: ListStatus,
)
    requires caller { tray.old.caller ≡ Filter f }
    requires may { MayTake (way.Back status) f (F.state filter.old) list tray.old.pool }
    requires ready { IsReady (F.state filter.old) tray.old }
    ensures { GoesHome called.Returned handler.Returned (F.state filter.old) list status tray.old (F.state filter.new) tray.new }
{
    if list.owner() == ModuleId::Filter(f) {
        filter.returned(list, status, tray);
    } else {
        pass_back(filter, tray, f, list, status);
    }
}

/// Works a receive on its way home at a filter.
fn back_to<F: FilterCalls>(
    filter: &mut F,
    tray: &mut Tray,
    pool: &mut ListPool,
    f: u64,
    list: BufferList,
    status: ListStatus,
)
    requires may { MayTake (way.Back status) f (F.state filter.old) list pool.old }
    requires ready { IsReady (F.state filter.old) tray.old }
    ensures { Works f (way.Back status) (F.state filter.old) list tray.old pool.old (F.state filter.new) tray.new pool.new }
{
    tray.set_caller(ModuleId::Filter(f));
    tray.exchange_pool(pool);
    back_at(filter, tray, f, list, status);
    tray.exchange_pool(pool);
}

/// Works a list at a filter, by the way that it goes.
fn work_list<F: FilterCalls>(
    filter: &mut F,
    tray: &mut Tray,
    pool: &mut ListPool,
    f: u64,
    list: BufferList,
    way: PassWay,
)
    requires may { MayTake way f (F.state filter.old) list pool.old }
    requires ready { IsReady (F.state filter.old) tray.old }
    requires room { 1 ≤ F.room filter.old }
    ensures { Works f way (F.state filter.old) list tray.old pool.old (F.state filter.new) tray.new pool.new }
{
    match way {
        PassWay::Down => send_to(filter, tray, pool, f, list),
        PassWay::Up => receive_to(filter, tray, pool, f, list),
        PassWay::Done(status) => done_to(filter, tray, pool, f, list, status),
        PassWay::Back(status) => back_to(filter, tray, pool, f, list, status),
    }
}

/// Works the first list on its way at a filter. After want of memory all is as before, but for room.
pub fn work_first<F: FilterCalls>(
    filter: &mut F,
    tray: &mut Tray,
    pool: &mut ListPool,
    f: u64,
) -> Result<(), OutOfMemory>
    requires { MayWork f (F.state filter.old) tray.old pool.old }
    ensures works { OnOk result (WorksFirst f (F.state filter.old) tray.old pool.old (F.state filter.new) tray.new pool.new) }
    ensures filter { OnErr result (F.state filter.new ≡ F.state filter.old) }
    ensures tray { OnErr result (IsRoomed tray.old tray.new) }
    ensures pool { OnErr result (pool.new ≡ pool.old) }
{
    make_room(filter, tray)?;
    let (list, way, _to) = take_list(tray);
    work_list(filter, tray, pool, f, list, way);
    Ok(())
}
