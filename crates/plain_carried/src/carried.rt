//! What the programs of a configuration make of frames.
ghost use Rattle.std.specs.Prelude.{◌≡◌, IfOk, option_copied};
ghost use Rattle.promise_rules.specs.Carried.{sent_by, received_by, carried_down, carried_up};

use crate::setups::setup_of;
use journal_types::{Frames, Setup, Turn};
use ndis_base::OutOfMemory;
use plain_programs::rules::applied;
use std::alloc::Global;

fn sent_by(
    alloc: Global,
    max: usize,
    setup: Option<&Setup>,
    frames: Frames,
) -> Result<Option<Frames>, OutOfMemory>
    ensures { IfOk result (λ made. made ≡ sent_by max (option_copied setup.entry) frames) }
{
    match setup {
        None => Ok(Some(frames)),
        Some(setup) => {
            if setup.handlers.send {
                applied(alloc, max, &setup.send, &frames)
            } else {
                Ok(Some(frames))
            }
        }
    }
}

fn received_by(
    alloc: Global,
    max: usize,
    setup: Option<&Setup>,
    frames: Frames,
) -> Result<Option<Frames>, OutOfMemory>
    ensures { IfOk result (λ made. made ≡ received_by max (option_copied setup.entry) frames) }
{
    match setup {
        None => Ok(Some(frames)),
        Some(setup) => {
            if setup.handlers.receive {
                applied(alloc, max, &setup.receive, &frames)
            } else {
                Ok(Some(frames))
            }
        }
    }
}

/// Frames that are carried down through filters, from top to bottom.
pub fn carried_down(
    alloc: Global,
    max: usize,
    turns: &[Turn],
    filters: &[u64],
    frames: Frames,
) -> Result<Option<Frames>, OutOfMemory>
    ensures { IfOk result (λ made. made ≡ carried_down max turns.now filters.now frames) }
{
    match filters {
        [] => Ok(Some(frames)),
        [f, others @ ..] => match sent_by(alloc, max, setup_of(turns, *f), frames)? {
            None => Ok(None),
            Some(made) => carried_down(alloc, max, turns, others, made),
        },
    }
}

/// Frames that are carried up through filters, from bottom to top.
pub fn carried_up(
    alloc: Global,
    max: usize,
    turns: &[Turn],
    filters: &[u64],
    frames: Frames,
) -> Result<Option<Frames>, OutOfMemory>
    ensures { IfOk result (λ made. made ≡ carried_up max turns.now filters.now frames) }
{
    match filters {
        [] => Ok(Some(frames)),
        [f, others @ ..] => match carried_up(alloc, max, turns, others, frames)? {
            None => Ok(None),
            Some(made) => received_by(alloc, max, setup_of(turns, *f), made),
        },
    }
}
