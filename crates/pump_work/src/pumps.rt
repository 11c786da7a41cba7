//! A pump, by what is first on its way.
ghost use Rattle.std.specs.Prelude.{◌≡◌, [], None, Some, OnOk, OnErr, IfOk};
ghost use Rattle.journal_types.specs.declared.Event.TheVariants as event;
ghost use Rattle.journal_types.specs.declared.Reply.TheVariants as reply;
ghost use Rattle.flat_journal.specs.Shown.{reply_of};
ghost use Rattle.flat_journal.specs.Within.{ReplyWithin};
ghost use Rattle.driver_tray.specs.Tray.{first_way};
ghost use Rattle.driver_tray.specs.declared.on_way.First.TheVariants as first;
ghost use Rattle.book_parts.specs.Parts.{view_of};
ghost use Rattle.book_parts.specs.Events.{IsBook, IsIdle, DidEvent, IsUnmoved, CanEnd};
ghost use Rattle.pump_work.specs.Pumps.{IsStill, Moves, MovesOne};

use crate::givings::give_next;
use answer_work::finish;
use binding_work::work_owner;
use book_parts::BookParts;
use delivery_work::work_bindings;
use driver_calls::{FilterCalls, MiniportCalls, ProtocolCalls};
use driver_tray::First;
use filter_work::work_filter;
use flat_journal::{FlatReply, Room};
use journal_types::{PassWay, Target};
use miniport_work::work_miniport;
use ndis_base::{ModuleId, OutOfMemory};
use status_work::work_status;

/// Nothing is on its way: no row is written.
fn idle<M: MiniportCalls, P: ProtocolCalls, F: FilterCalls>(
    book: &mut BookParts<M, P, F>,
) -> Result<(), OutOfMemory>
    requires book { IsBook (view_of M.state P.state F.state book.old) }
    requires idle { IsIdle (view_of M.state P.state F.state book.old) }
    requires still { IsStill (view_of M.state P.state F.state book.old) }
    ensures did { OnOk result (DidEvent (view_of M.state P.state F.state book.old) (view_of M.state P.state F.state book.new) event.Pump reply.Idle) }
    ensures turn { OnOk result (CanEnd (view_of M.state P.state F.state book.new)) }
    ensures memory { OnErr result (IsUnmoved (view_of M.state P.state F.state book.old) (view_of M.state P.state F.state book.new)) }
{
    book.tray.make_room(
        Room {
            turns: 1,
            ..Room::none()
        },
        0,
    )?;
    Ok(())
}

/// Works the first list on its way, by where it goes.
fn work_list<M: MiniportCalls, P: ProtocolCalls, F: FilterCalls>(
    book: &mut BookParts<M, P, F>,
    way: PassWay,
    to: Target,
) -> Result<(), OutOfMemory>
    requires book { IsBook (view_of M.state P.state F.state book.old) }
    requires idle { IsIdle (view_of M.state P.state F.state book.old) }
    requires first { first_way (view_of M.state P.state F.state book.old).tray.queue ≡ Some (first.List way to) }
    ensures did { OnOk result (DidEvent (view_of M.state P.state F.state book.old) (view_of M.state P.state F.state book.new) event.Pump reply.Moved) }
    ensures turn { OnOk result (CanEnd (view_of M.state P.state F.state book.new)) }
    ensures memory { OnErr result (IsUnmoved (view_of M.state P.state F.state book.old) (view_of M.state P.state F.state book.new)) }
{
    match to {
        Target::Module(ModuleId::Filter(f)) => work_filter(book, f),
        Target::Module(ModuleId::Miniport) => work_miniport(book),
        Target::Module(ModuleId::Binding(binding)) => work_owner(book, binding),
        Target::Bindings => work_bindings(book),
    }
}

/// Works the first thing on its way: a list, a status or an answer.
fn work_thing<M: MiniportCalls, P: ProtocolCalls, F: FilterCalls>(
    book: &mut BookParts<M, P, F>,
    first: First,
) -> Result<(), OutOfMemory>
    requires book { IsBook (view_of M.state P.state F.state book.old) }
    requires idle { IsIdle (view_of M.state P.state F.state book.old) }
    requires first { first_way (view_of M.state P.state F.state book.old).tray.queue ≡ Some first }
    ensures did { OnOk result (DidEvent (view_of M.state P.state F.state book.old) (view_of M.state P.state F.state book.new) event.Pump reply.Moved) }
    ensures turn { OnOk result (CanEnd (view_of M.state P.state F.state book.new)) }
    ensures memory { OnErr result (IsUnmoved (view_of M.state P.state F.state book.old) (view_of M.state P.state F.state book.new)) }
{
    match first {
        First::List { way, to } => work_list(book, way, to),
        First::Status => work_status(book),
        First::Answer => finish(book),
    }
}

/// The same, which a drain does too.
fn work_first<M: MiniportCalls, P: ProtocolCalls, F: FilterCalls>(
    book: &mut BookParts<M, P, F>,
    first: First,
) -> Result<(), OutOfMemory>
    requires book { IsBook (view_of M.state P.state F.state book.old) }
    requires idle { IsIdle (view_of M.state P.state F.state book.old) }
    requires first { first_way (view_of M.state P.state F.state book.old).tray.queue ≡ Some first }
    ensures moves { OnOk result (MovesOne (view_of M.state P.state F.state book.old) (view_of M.state P.state F.state book.new)) }
    ensures memory { OnErr result (IsUnmoved (view_of M.state P.state F.state book.old) (view_of M.state P.state F.state book.new)) }
{
    work_thing(book, first)?;
    Ok(())
}

/// Works the first thing on its way, and where there is none, gives a request that may be given: first that of
/// the lowest module at which one waits and that is not busy, else the entry's first. It answers whether
/// anything moved.
pub fn move_first<M: MiniportCalls, P: ProtocolCalls, F: FilterCalls>(
    book: &mut BookParts<M, P, F>,
) -> Result<bool, OutOfMemory>
    requires book { IsBook (view_of M.state P.state F.state book.old) }
    requires idle { IsIdle (view_of M.state P.state F.state book.old) }
    ensures moves { IfOk result (λ moved. Moves (view_of M.state P.state F.state book.old) (view_of M.state P.state F.state book.new) moved) }
    ensures memory { OnErr result (IsUnmoved (view_of M.state P.state F.state book.old) (view_of M.state P.state F.state book.new)) }
{
    match book.tray.first() {
        None => give_next(book),
        Some(first) => {
            work_first(book, first)?;
            Ok(true)
        }
    }
}

/// Works what comes first; Idle where nothing moves.
pub fn pump<M: MiniportCalls, P: ProtocolCalls, F: FilterCalls>(
    book: &mut BookParts<M, P, F>,
) -> Result<FlatReply, OutOfMemory>
    requires book { IsBook (view_of M.state P.state F.state book.old) }
    requires idle { IsIdle (view_of M.state P.state F.state book.old) }
    ensures did { IfOk result (λ r. DidEvent (view_of M.state P.state F.state book.old) (view_of M.state P.state F.state book.new) event.Pump (reply_of (view_of M.state P.state F.state book.new).tray.payloads r)) }
    ensures within { IfOk result (λ r. ReplyWithin (view_of M.state P.state F.state book.new).tray.payloads r) }
    ensures turn { OnOk result (CanEnd (view_of M.state P.state F.state book.new)) }
    ensures memory { OnErr result (IsUnmoved (view_of M.state P.state F.state book.old) (view_of M.state P.state F.state book.new)) }
{
    if move_first(book)? {
        Ok(FlatReply::Moved)
    } else {
        idle(book)?;
        Ok(FlatReply::Idle)
    }
}
