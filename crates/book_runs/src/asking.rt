//! One turn, and pumps.
ghost use Rattle.std.specs.Prelude.{◌≡◌, true, OnOk, IfOk};
ghost use Rattle.stack_rules.specs.Conditions.{may_ask};
ghost use Rattle.flat_journal.specs.Shown.{reply_of};
ghost use Rattle.book_parts.specs.Parts.{view_of};
ghost use Rattle.stack_steps.specs.Steps.{IsWorked};
ghost use Rattle.book_runs.specs.Runs.{IsBetween, Turned, Pumped, PumpedAll};

use crate::answers::is_moved;
use book_parts::BookParts;
use driver_calls::{FilterCalls, MiniportCalls, ProtocolCalls};
use flat_journal::FlatReply;
use journal_types::{Asked, Event};
use ndis_base::{OutOfMemory, Who};
use stack_steps::step;
use std::alloc::Global;

/// Asks an event of the stack.
pub(crate) fn ask_for<M: MiniportCalls, P: ProtocolCalls, F: FilterCalls>(
    book: &mut BookParts<M, P, F>,
    alloc: Global,
    asked: &Asked,
) -> Result<FlatReply, OutOfMemory>
    requires between { IsBetween (view_of M.state P.state F.state book.old) }
    requires worked { IsWorked asked.now.event }
    requires may { may_ask (view_of M.state P.state F.state book.old).tray.head asked.now.event ≡ true }
    ensures between { IsBetween (view_of M.state P.state F.state book.new) }
    ensures turned { IfOk result (λ r. Turned (view_of M.state P.state F.state book.old) (view_of M.state P.state F.state book.new) asked.now.who asked.now.event (reply_of (view_of M.state P.state F.state book.new).tray.payloads r)) }
{
    let reply = step(book, alloc, asked)?;
    Ok(reply)
}

/// The same, with the event in its hands.
pub(crate) fn ask<M: MiniportCalls, P: ProtocolCalls, F: FilterCalls>(
    book: &mut BookParts<M, P, F>,
    alloc: Global,
    who: Who,
    event: Event,
) -> Result<FlatReply, OutOfMemory>
    requires between { IsBetween (view_of M.state P.state F.state book.old) }
    requires worked { IsWorked event }
    requires may { may_ask (view_of M.state P.state F.state book.old).tray.head event ≡ true }
    ensures between { IsBetween (view_of M.state P.state F.state book.new) }
    ensures turned { IfOk result (λ r. Turned (view_of M.state P.state F.state book.old) (view_of M.state P.state F.state book.new) who event (reply_of (view_of M.state P.state F.state book.new).tray.payloads r)) }
{
    let asked = Asked { who, event };
    ask_for(book, alloc, &asked)
}

/// One pump: whether anything moved.
fn pump_once<M: MiniportCalls, P: ProtocolCalls, F: FilterCalls>(
    book: &mut BookParts<M, P, F>,
    alloc: Global,
    who: Who,
) -> Result<bool, OutOfMemory>
    requires between { IsBetween (view_of M.state P.state F.state book.old) }
    ensures between { IsBetween (view_of M.state P.state F.state book.new) }
    ensures pumped { IfOk result (λ moved. Pumped who moved (view_of M.state P.state F.state book.old) (view_of M.state P.state F.state book.new)) }
{
    let reply = ask(book, alloc, who, Event::Pump)?;
    Ok(is_moved(reply))
}

/// Pumps until nothing moves.
pub(crate) fn pump_all<M: MiniportCalls, P: ProtocolCalls, F: FilterCalls>(
    book: &mut BookParts<M, P, F>,
    alloc: Global,
    who: Who,
) -> Result<(), OutOfMemory>
    requires between { IsBetween (view_of M.state P.state F.state book.old) }
    ensures between { IsBetween (view_of M.state P.state F.state book.new) }
    ensures pumped { OnOk result (PumpedAll who (view_of M.state P.state F.state book.old) (view_of M.state P.state F.state book.new)) }
{
    while pump_once(book, alloc, who)? {}
    Ok(())
}
