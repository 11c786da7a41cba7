//! A receive at the bindings.
ghost use Rattle.std.specs.Prelude.{◌≡◌, ◌≤◌, ◌<◌, ◌^◌, ◌∷◌, true, IfSome, IfNone, OnOk, OnErr, length, map};
ghost use Rattle.std.specs.List.{All};
ghost use Rattle.ndis_base.specs.declared.Phase.TheVariants.{Running};
ghost use Rattle.journal_types.specs.declared.PassWay.TheVariants.{Up};
ghost use Rattle.journal_types.specs.declared.Target.TheVariants.{Bindings};
ghost use Rattle.journal_types.specs.declared.Event.TheVariants as event;
ghost use Rattle.journal_types.specs.declared.Reply.TheVariants as reply;
ghost use Rattle.agenda_items.specs.declared.Carried.TheVariants.{List as a_list};
ghost use Rattle.book_parts.specs.Parts.{view_of};
ghost use Rattle.book_parts.specs.Events.{IsBook, IsIdle, FirstIs, DidEvent, IsUnmoved, CanEnd};
ghost use Rattle.binding_work.specs.Homes.{BeginsWithList};
ghost use Rattle.binding_work.specs.Ups.{gone_back};
ghost use Rattle.delivery_work.specs.Works.{IsReadyForAll, Works, MayWork};

use crate::lending::deliver_each;
use crate::rooming::make_all_room;
use crate::taking::next_taker;
use agenda_items::Item;
use binding_work::ups::turn_back_paused;
use book_parts::BookParts;
use buffer_pools::{BufferList, ListPool};
use driver_calls::{FilterCalls, MiniportCalls, ProtocolCalls};
use driver_tray::Tray;
use journal_types::{PassWay, Target};
use ndis_base::{ListStatus, ModuleId, OutOfMemory, Phase};

/// Takes the first list that is on its way.
fn take_list(tray: &mut Tray) -> (BufferList, PassWay, Target)
    requires { BeginsWithList tray.old.queue }
    ensures { tray.old ≡ record tray.new { queue = a_list result.0 result.1 result.2 ∷ tray.new.queue } }
{
    match tray.dequeue() {
        Some(Item::List { list, way, to }) => (list, way, to),
        Some(Item::Status(_)) => unreachable!(),
        Some(Item::Answer(_answer)) => unreachable!(),
        None => unreachable!(),
    }
}

/// A list that nobody takes goes back from the first binding.
fn return_from(tray: &mut Tray, pool: &mut ListPool, list: BufferList)
    requires room { 1 ≤ tray.old.room.rows }
    requires slack { 1 ≤ tray.old.slack }
    ensures tray { tray.new ≡ record (gone_back true tray.old pool.old list) { pool = tray.old.pool } }
    ensures pool { pool.new ≡ pool.old }
{
    tray.set_caller(ModuleId::Binding(0));
    tray.exchange_pool(pool);
    tray.pass_back(list, ListStatus::Success);
    tray.exchange_pool(pool);
}

/// How many these are; None where they are 2 to the power of 32 or more, which no number of a binding
/// tells apart.
pub fn count_of(bindings: usize) -> Option<u32>
    ensures all { IfSome result (λ many. many ≡ bindings) }
{
    if bindings > u32::MAX as usize {
        return None;
    }
    Some(bindings as u32)
}

/// Delivers the first list on its way to those that take it, with the room that this wants.
fn work_first<M: MiniportCalls, P: ProtocolCalls, F: FilterCalls>(
    book: &mut BookParts<M, P, F>,
    many: u32,
)
    requires may { MayWork many (view_of M.state P.state F.state book.old) }
    requires rooms { All (λ r. 1 ≤ r) (map P.room book.old.protocols.items) }
    ensures { Works many (view_of M.state P.state F.state book.old) (view_of M.state P.state F.state book.new) }
{
    let (list, _way, _to) = take_list(&mut book.tray);
    match next_taker(&book.tray, &list, 0, many) {
        Some(first) => deliver_each(
            &mut book.protocols,
            &mut book.tray,
            &mut book.protocol_pools,
            list,
            first,
            many,
        ),
        None => return_from(&mut book.tray, &mut book.protocol_pools[0], list),
    }
}

/// Delivers the first list on its way, while the stack runs.
fn work_running<M: MiniportCalls, P: ProtocolCalls, F: FilterCalls>(
    book: &mut BookParts<M, P, F>,
) -> Result<(), OutOfMemory>
    requires book { IsBook (view_of M.state P.state F.state book.old) }
    requires idle { IsIdle (view_of M.state P.state F.state book.old) }
    requires first { FirstIs (view_of M.state P.state F.state book.old) Up Bindings }
    requires running { (view_of M.state P.state F.state book.old).tray.net.phase ≡ Running }
    ensures did { OnOk result (DidEvent (view_of M.state P.state F.state book.old) (view_of M.state P.state F.state book.new) event.Pump reply.Moved) }
    ensures turn { OnOk result (CanEnd (view_of M.state P.state F.state book.new)) }
    ensures memory { OnErr result (IsUnmoved (view_of M.state P.state F.state book.old) (view_of M.state P.state F.state book.new)) }
{
    let Some(many) = count_of(book.protocols.len()) else {
        return Err(OutOfMemory);
    };
    make_all_room(book, many)?;
    work_first(book, many);
    Ok(())
}

/// The first thing on its way is a receive at the bindings: each binding whose packet filter takes its first
/// frame gets it, in rising order; it is lent to all but the last one (WDK, "Receiving Data in Protocol
/// Drivers", "OID_GEN_CURRENT_PACKET_FILTER"). Where nobody takes it, it goes back, and while the stack
/// doesn't run, it is turned back. It also answers want of memory where there are 2 to the power of 32
/// bindings or more, or a count comes near 2 to the power of 60, which no run can reach.
pub fn work_bindings<M: MiniportCalls, P: ProtocolCalls, F: FilterCalls>(
    book: &mut BookParts<M, P, F>,
) -> Result<(), OutOfMemory>
    requires book { IsBook (view_of M.state P.state F.state book.old) }
    requires idle { IsIdle (view_of M.state P.state F.state book.old) }
    requires first { FirstIs (view_of M.state P.state F.state book.old) Up Bindings }
    ensures did { OnOk result (DidEvent (view_of M.state P.state F.state book.old) (view_of M.state P.state F.state book.new) event.Pump reply.Moved) }
    ensures turn { OnOk result (CanEnd (view_of M.state P.state F.state book.new)) }
    ensures memory { OnErr result (IsUnmoved (view_of M.state P.state F.state book.old) (view_of M.state P.state F.state book.new)) }
{
    match book.tray.phase() {
        Phase::Running => work_running(book),
        _ => turn_back_paused(book),
    }
}
