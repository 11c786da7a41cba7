//! A pause, with a drain each time it waits.
ghost use Rattle.std.specs.Prelude.{◌<◌, OnOk, IfOk, length};
ghost use Rattle.ndis_base.specs.declared.Phase.TheVariants as phase;
ghost use Rattle.book_parts.specs.Parts.{view_of};
ghost use Rattle.book_runs.specs.Runs.{IsBetween, IsInPhase, Drained, PausesOnce, PausesAll};

use crate::answers::{is_paused, is_waiting};
use crate::asking::ask;
use book_parts::BookParts;
use driver_calls::{FilterCalls, MiniportCalls, ProtocolCalls};
use journal_types::Event;
use ndis_base::{OutOfMemory, Who};
use std::alloc::Global;

/// One drain of a stack that pauses and waits: something moves.
pub(crate) fn drain_once<M: MiniportCalls, P: ProtocolCalls, F: FilterCalls>(
    book: &mut BookParts<M, P, F>,
    alloc: Global,
    who: Who,
) -> Result<(), OutOfMemory>
    requires pausing { IsInPhase (view_of M.state P.state F.state book.old) phase.Pausing }
    requires some { 0 < length (view_of M.state P.state F.state book.old).tray.net.things }
    ensures between { IsBetween (view_of M.state P.state F.state book.new) }
    ensures drained { OnOk result (Drained who (view_of M.state P.state F.state book.old) (view_of M.state P.state F.state book.new)) }
{
    ask(book, alloc, who, Event::Drain)?;
    Ok(())
}

/// One step of a pause, and one drain where it waits: whether the stack is Paused.
fn pause_once<M: MiniportCalls, P: ProtocolCalls, F: FilterCalls>(
    book: &mut BookParts<M, P, F>,
    alloc: Global,
    who: Who,
) -> Result<bool, OutOfMemory>
    requires pausing { IsInPhase (view_of M.state P.state F.state book.old) phase.Pausing }
    ensures between { IsBetween (view_of M.state P.state F.state book.new) }
    ensures pauses { IfOk result (λ done. PausesOnce who done (view_of M.state P.state F.state book.old) (view_of M.state P.state F.state book.new)) }
{
    let reply = ask(book, alloc, who, Event::PauseNext)?;
    if is_waiting(reply) {
        drain_once(book, alloc, who)?;
        return Ok(false);
    }
    Ok(is_paused(reply))
}

/// Pauses a stack that pauses to its end: after each Waiting one drain.
pub(crate) fn pause_all<M: MiniportCalls, P: ProtocolCalls, F: FilterCalls>(
    book: &mut BookParts<M, P, F>,
    alloc: Global,
    who: Who,
) -> Result<(), OutOfMemory>
    requires pausing { IsInPhase (view_of M.state P.state F.state book.old) phase.Pausing }
    ensures between { IsBetween (view_of M.state P.state F.state book.new) }
    ensures pauses { OnOk result (PausesAll who (view_of M.state P.state F.state book.old) (view_of M.state P.state F.state book.new)) }
{
    while !pause_once(book, alloc, who)? {}
    Ok(())
}
