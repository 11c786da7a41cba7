//! A receive that nobody takes at the bindings, and a receive while the stack doesn't run.
ghost use Rattle.std.specs.Prelude.{◌≡◌, ℕ, ◌<◌, ◌≤◌, ◌≢◌, ◌∷◌, true, false, [], OnOk, OnErr, length, slice_set, slice_index_or};
ghost use Rattle.ndis_base.specs.declared.Phase.TheVariants.{Running};
ghost use Rattle.journal_types.specs.declared.PassWay.TheVariants.{Up};
ghost use Rattle.journal_types.specs.declared.Target.TheVariants.{Bindings};
ghost use Rattle.journal_types.specs.declared.Event.TheVariants as event;
ghost use Rattle.journal_types.specs.declared.Reply.TheVariants as reply;
ghost use Rattle.book_parts.specs.Parts.{view_of};
ghost use Rattle.book_parts.specs.Events.{IsBook, IsIdle, FirstIs, DidEvent, IsUnmoved, CanEnd};
ghost use Rattle.binding_work.specs.Ups.{gone_back, IsReadyToReturn, HasGoneBack, IsUntaken};
ghost use Rattle.binding_work.specs.Homes.{IsRoomed};

use crate::homes::take_list;
use book_parts::BookParts;
use buffer_pools::{BufferList, ListPool};
use driver_calls::{FilterCalls, MiniportCalls, ProtocolCalls};
use driver_tray::Tray;
use flat_journal::Room;
use ndis_base::{ListStatus, ModuleId, OutOfMemory};

/// A list that nobody takes goes back from the first binding.
fn return_from(tray: &mut Tray, pool: &mut ListPool, list: BufferList)
    requires room { 1 ≤ tray.old.room.rows }
    requires slack { 1 ≤ tray.old.slack }
    ensures tray { tray.new ≡ record (gone_back true tray.old pool.old list) { pool = tray.old.pool } }
    ensures pool { pool.new ≡ pool.old }
{
    tray.set_caller(ModuleId::Binding(0));
    tray.exchange_pool(pool);
    tray.pass_back(list, ListStatus::Success);
    tray.exchange_pool(pool);
}

/// While the stack doesn't run a list is turned back at the first binding.
fn turn_from(tray: &mut Tray, pool: &mut ListPool, list: BufferList)
    requires room { 2 ≤ tray.old.room.rows }
    requires slack { 1 ≤ tray.old.slack }
    ensures tray { tray.new ≡ record (gone_back false tray.old pool.old list) { pool = tray.old.pool } }
    ensures pool { pool.new ≡ pool.old }
{
    tray.set_caller(ModuleId::Binding(0));
    tray.exchange_pool(pool);
    tray.turn_back(list, ListStatus::Paused);
    tray.exchange_pool(pool);
}

/// Makes room for a list to go back.
fn make_room<M: MiniportCalls, P: ProtocolCalls, F: FilterCalls>(
    book: &mut BookParts<M, P, F>,
) -> Result<(), OutOfMemory>
    ensures ready { OnOk result (IsReadyToReturn (view_of M.state P.state F.state book.old) (view_of M.state P.state F.state book.new)) }
    ensures memory { OnErr result (IsRoomed (view_of M.state P.state F.state book.old) (view_of M.state P.state F.state book.new)) }
{
    book.tray.make_room(
        Room {
            turns: 1,
            rows: 2,
            ..Room::none()
        },
        1,
    )?;
    Ok(())
}

/// Where nobody takes the first list on its way, it goes back.
fn return_first<M: MiniportCalls, P: ProtocolCalls, F: FilterCalls>(book: &mut BookParts<M, P, F>)
    requires there { 0 < length book.old.protocol_pools.items }
    requires first { FirstIs (view_of M.state P.state F.state book.old) Up Bindings }
    requires room { 2 ≤ (view_of M.state P.state F.state book.old).tray.room.rows }
    requires slack { 1 ≤ (view_of M.state P.state F.state book.old).tray.slack }
    ensures { HasGoneBack true (view_of M.state P.state F.state book.old) (view_of M.state P.state F.state book.new) }
{
    let (list, _way, _to) = take_list(&mut book.tray);
    return_from(&mut book.tray, &mut book.protocol_pools[0], list);
}

/// While the stack doesn't run the first list on its way is turned back.
fn turn_first<M: MiniportCalls, P: ProtocolCalls, F: FilterCalls>(book: &mut BookParts<M, P, F>)
    requires there { 0 < length book.old.protocol_pools.items }
    requires first { FirstIs (view_of M.state P.state F.state book.old) Up Bindings }
    requires room { 2 ≤ (view_of M.state P.state F.state book.old).tray.room.rows }
    requires slack { 1 ≤ (view_of M.state P.state F.state book.old).tray.slack }
    ensures { HasGoneBack false (view_of M.state P.state F.state book.old) (view_of M.state P.state F.state book.new) }
{
    let (list, _way, _to) = take_list(&mut book.tray);
    turn_from(&mut book.tray, &mut book.protocol_pools[0], list);
}

/// The first thing on its way, a receive at the bindings, goes back, since no binding takes it.
pub fn return_untaken<M: MiniportCalls, P: ProtocolCalls, F: FilterCalls>(
    book: &mut BookParts<M, P, F>,
) -> Result<(), OutOfMemory>
    requires book { IsBook (view_of M.state P.state F.state book.old) }
    requires idle { IsIdle (view_of M.state P.state F.state book.old) }
    requires first { FirstIs (view_of M.state P.state F.state book.old) Up Bindings }
    requires running { (view_of M.state P.state F.state book.old).tray.net.phase ≡ Running }
    requires untaken { IsUntaken (view_of M.state P.state F.state book.old) }
    ensures did { OnOk result (DidEvent (view_of M.state P.state F.state book.old) (view_of M.state P.state F.state book.new) event.Pump reply.Moved) }
    ensures turn { OnOk result (CanEnd (view_of M.state P.state F.state book.new)) }
    ensures memory { OnErr result (IsUnmoved (view_of M.state P.state F.state book.old) (view_of M.state P.state F.state book.new)) }
{
    make_room(book)?;
    return_first(book);
    Ok(())
}

/// The first thing on its way, a receive at the bindings, is turned back, since the stack doesn't run.
pub fn turn_back_paused<M: MiniportCalls, P: ProtocolCalls, F: FilterCalls>(
    book: &mut BookParts<M, P, F>,
) -> Result<(), OutOfMemory>
    requires book { IsBook (view_of M.state P.state F.state book.old) }
    requires idle { IsIdle (view_of M.state P.state F.state book.old) }
    requires first { FirstIs (view_of M.state P.state F.state book.old) Up Bindings }
    requires paused { (view_of M.state P.state F.state book.old).tray.net.phase ≢ Running }
    ensures did { OnOk result (DidEvent (view_of M.state P.state F.state book.old) (view_of M.state P.state F.state book.new) event.Pump reply.Moved) }
    ensures turn { OnOk result (CanEnd (view_of M.state P.state F.state book.new)) }
    ensures memory { OnErr result (IsUnmoved (view_of M.state P.state F.state book.old) (view_of M.state P.state F.state book.new)) }
{
    make_room(book)?;
    turn_first(book);
    Ok(())
}
