//! A restart, position by position from the bottom.
ghost use Rattle.std.specs.Prelude.{OnOk, IfOk};
ghost use Rattle.book_parts.specs.Parts.{view_of};
ghost use Rattle.book_runs.specs.Runs.{IsBetween, IsRestarting, RestartsOnce, RestartsAll};

use crate::answers::is_running;
use crate::asking::ask;
use book_parts::BookParts;
use driver_calls::{FilterCalls, MiniportCalls, ProtocolCalls};
use journal_types::Event;
use ndis_base::{OutOfMemory, Who};
use std::alloc::Global;

/// One step of a restart: whether the stack runs.
fn restart_once<M: MiniportCalls, P: ProtocolCalls, F: FilterCalls>(
    book: &mut BookParts<M, P, F>,
    alloc: Global,
    who: Who,
) -> Result<bool, OutOfMemory>
    requires restarting { IsRestarting (view_of M.state P.state F.state book.old) }
    ensures between { IsBetween (view_of M.state P.state F.state book.new) }
    ensures restarts { IfOk result (λ done. RestartsOnce who done (view_of M.state P.state F.state book.old) (view_of M.state P.state F.state book.new)) }
{
    let reply = ask(book, alloc, who, Event::RestartNext)?;
    Ok(is_running(reply))
}

/// Restarts a stack that is Paused or restarts, position by position from the bottom, until it runs.
pub(crate) fn restart_all<M: MiniportCalls, P: ProtocolCalls, F: FilterCalls>(
    book: &mut BookParts<M, P, F>,
    alloc: Global,
    who: Who,
) -> Result<(), OutOfMemory>
    requires restarting { IsRestarting (view_of M.state P.state F.state book.old) }
    ensures between { IsBetween (view_of M.state P.state F.state book.new) }
    ensures restarts { OnOk result (RestartsAll who (view_of M.state P.state F.state book.old) (view_of M.state P.state F.state book.new)) }
{
    while !restart_once(book, alloc, who)? {}
    Ok(())
}
