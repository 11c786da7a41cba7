//! The run of a script.
ghost use Rattle.std.specs.Prelude.{◌≡◌, ◌≢◌, true, IfOk, IfErr, MatchResult};
ghost use Rattle.book_opening.specs.Opened.{AreIdle, handed_of};
ghost use Rattle.script_runs.specs.Drivers.{LacksDrivers, LeavesDrivers, ComesBack};
ghost use Rattle.script_runs.specs.Built as form;

use crate::built::head_of;
use book_opening::{OpenFault, StackDrivers, abandon, close, open};
use book_scripts::run_stack;
use driver_calls::{FilterCalls, MiniportCalls, ProtocolCalls};
use flat_journal::FlatJournal;
use ndis_base::OutOfMemory;
use script_types::Script;
use std::alloc::Global;
use thiserror::Error;

/// Why a script was not run: there are too few drivers of the kinds that it names, or memory ran out,
/// before the drivers were moved into the stack, or after, when those that were moved are gone.
#[derive(Clone, Copy, Debug, PartialEq, Eq, Error)]
pub enum RunFault {
    #[error("too few drivers")]
    NoParts,
    #[error("out of memory")]
    Memory,
    #[error("out of memory, and the drivers of the stack are lost")]
    Lost,
}

/// Runs a script over the drivers that are handed in: opens its stack, makes its calls in an order of lanes
/// (for each lane its next call, a lane without calls left being skipped, and then the rest, lane by lane in
/// rising order), each with its tail, ends the stack, and gives the drivers back with the journal. After a
/// fault they come back as they were, or where they are lost the others do.
pub fn run_script<M: MiniportCalls, P: ProtocolCalls, F: FilterCalls>(
    alloc: Global,
    script: &Script,
    order: &[u8],
    drivers: StackDrivers<M, P, F>,
) -> Result<(StackDrivers<M, P, F>, FlatJournal), (StackDrivers<M, P, F>, RunFault)>
    requires built { form.is_built script.now ≡ true }
    requires idle { AreIdle (handed_of M.state P.state F.state drivers) }
    ensures run { IfOk result (λ r. form.IsRun script.now order.now r.1.head r.1.turns) }
    ensures back { IfOk result (λ r. ComesBack script.now.stacks r.1.turns (handed_of M.state P.state F.state drivers) (handed_of M.state P.state F.state r.0)) }
    ensures enough { IfOk result (λ r. ¬ LacksDrivers script.now.stacks (handed_of M.state P.state F.state drivers)) }
    ensures lacks { IfErr result (λ e. e.1 ≡ RunFault.NoParts → LacksDrivers script.now.stacks (handed_of M.state P.state F.state drivers)) }
    ensures unchanged { IfErr result (λ e. e.1 ≢ RunFault.Lost → e.0 ≡ drivers) }
    ensures left { IfErr result (λ e. e.1 ≡ RunFault.Lost → LeavesDrivers script.now.stacks (handed_of M.state P.state F.state drivers) (handed_of M.state P.state F.state e.0)) }
    // The drivers that come back may be handed in again.
    ensures idle { MatchResult result (λ r. AreIdle (handed_of M.state P.state F.state r.0)) (λ e. AreIdle (handed_of M.state P.state F.state e.0)) }
{
    let [stack] = script.stacks.items() else {
        unreachable!()
    };
    let Ok(head) = head_of(alloc, stack) else {
        return Err((drivers, RunFault::Memory));
    };
    let (mut book, others) = match open(alloc, head, drivers) {
        Ok(opened) => opened,
        Err((drivers, OpenFault::NoParts)) => return Err((drivers, RunFault::NoParts)),
        Err((drivers, OpenFault::Memory)) => return Err((drivers, RunFault::Memory)),
    };
    match run_stack(
        &mut book,
        alloc,
        stack.filters.items(),
        script.lanes,
        script.calls.items(),
        order,
    ) {
        Ok(()) => Ok(close(book, others)),
        Err(OutOfMemory) => {
            abandon(book);
            Err((others, RunFault::Lost))
        }
    }
}
