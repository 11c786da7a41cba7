//! The ending: a stack is brought to run, pumped until nothing moves, paused, pumped again and halted.
ghost use Rattle.std.specs.Prelude.{OnOk};
ghost use Rattle.ndis_base.specs.declared.Phase.TheVariants as phase;
ghost use Rattle.book_parts.specs.Parts.{view_of};
ghost use Rattle.book_runs.specs.Runs.{IsBetween, IsInPhase, IsRestarting, EndsStack};

use crate::asking::{ask, pump_all};
use crate::pausing::pause_all;
use crate::restarting::restart_all;
use book_parts::BookParts;
use driver_calls::{FilterCalls, MiniportCalls, ProtocolCalls};
use journal_types::Event;
use ndis_base::{OutOfMemory, Phase, Who};
use std::alloc::Global;

/// Ends a stack that runs.
fn end_running<M: MiniportCalls, P: ProtocolCalls, F: FilterCalls>(
    book: &mut BookParts<M, P, F>,
    alloc: Global,
) -> Result<(), OutOfMemory>
    requires running { IsInPhase (view_of M.state P.state F.state book.old) phase.Running }
    ensures between { IsBetween (view_of M.state P.state F.state book.new) }
    ensures ends { OnOk result (EndsStack (view_of M.state P.state F.state book.old) (view_of M.state P.state F.state book.new)) }
{
    pump_all(book, alloc, Who::Own)?;
    ask(book, alloc, Who::Own, Event::BeginPause)?;
    pause_all(book, alloc, Who::Own)?;
    pump_all(book, alloc, Who::Own)?;
    ask(book, alloc, Who::Own, Event::Halt)?;
    Ok(())
}

/// Ends a stack that is Paused or restarts: it is restarted until it runs.
fn end_restarting<M: MiniportCalls, P: ProtocolCalls, F: FilterCalls>(
    book: &mut BookParts<M, P, F>,
    alloc: Global,
) -> Result<(), OutOfMemory>
    requires restarting { IsRestarting (view_of M.state P.state F.state book.old) }
    ensures between { IsBetween (view_of M.state P.state F.state book.new) }
    ensures ends { OnOk result (EndsStack (view_of M.state P.state F.state book.old) (view_of M.state P.state F.state book.new)) }
{
    restart_all(book, alloc, Who::Own)?;
    end_running(book, alloc)?;
    Ok(())
}

/// Ends a stack that pauses: it is paused to the end first.
fn end_pausing<M: MiniportCalls, P: ProtocolCalls, F: FilterCalls>(
    book: &mut BookParts<M, P, F>,
    alloc: Global,
) -> Result<(), OutOfMemory>
    requires pausing { IsInPhase (view_of M.state P.state F.state book.old) phase.Pausing }
    ensures between { IsBetween (view_of M.state P.state F.state book.new) }
    ensures ends { OnOk result (EndsStack (view_of M.state P.state F.state book.old) (view_of M.state P.state F.state book.new)) }
{
    pause_all(book, alloc, Who::Own)?;
    end_restarting(book, alloc)?;
    Ok(())
}

/// Ends a stack, in whatever phase it is, unless it is Halted: one that pauses is paused to the end, one that is
/// Paused or restarts is restarted until it runs, and one that runs is pumped until nothing moves, paused, pumped
/// again and halted.
pub fn end_stack<M: MiniportCalls, P: ProtocolCalls, F: FilterCalls>(
    book: &mut BookParts<M, P, F>,
    alloc: Global,
) -> Result<(), OutOfMemory>
    requires between { IsBetween (view_of M.state P.state F.state book.old) }
    ensures between { IsBetween (view_of M.state P.state F.state book.new) }
    ensures ends { OnOk result (EndsStack (view_of M.state P.state F.state book.old) (view_of M.state P.state F.state book.new)) }
{
    match book.tray.phase() {
        Phase::Halted => Ok(()),
        Phase::Pausing => end_pausing(book, alloc),
        Phase::Paused | Phase::Restarting => end_restarting(book, alloc),
        Phase::Running => end_running(book, alloc),
    }
}
