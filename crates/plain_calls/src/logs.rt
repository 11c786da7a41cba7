//! What a driver's log shows.
ghost use Rattle.std.specs.Prelude.{◌≡◌, ◌++◌, ◌∷◌, [], IfOk, flat_map};
ghost use Rattle.ndis_base.specs.declared.ModuleId.TheVariants.{Miniport, Binding};
ghost use Rattle.promise_rules.specs.Calls.{logged_at, log_of};

use journal_types::{Frames, OutWay, Row, Turn};
use ndis_base::{ModuleId, OutOfMemory};
use plain_parts::copies::copy_frames;
use std::alloc::Global;

fn one_entry(alloc: Global, frames: &Frames) -> Result<Vec<Frames>, OutOfMemory>
    ensures { IfOk result (λ log. log.items ≡ frames.now ∷ []) }
{
    let mut log = Vec::new(alloc);
    log.push(copy_frames(alloc, frames)?)?;
    Ok(log)
}

fn no_entry(alloc: Global) -> Vec<Frames>
    ensures { result.items ≡ [] }
{
    Vec::new(alloc)
}

fn logged_by_miniport(alloc: Global, row: &Row) -> Result<Vec<Frames>, OutOfMemory>
    ensures { IfOk result (λ log. log.items ≡ logged_at Miniport row.now) }
{
    match row {
        Row::Wire { frames, .. } => one_entry(alloc, frames),
        Row::CrossOut { way, frames, .. } => match *way {
            OutWay::Down(_) => one_entry(alloc, frames),
            OutWay::Up => Ok(no_entry(alloc)),
        },
        _ => Ok(no_entry(alloc)),
    }
}

fn logged_by_binding(alloc: Global, b: u32, row: &Row) -> Result<Vec<Frames>, OutOfMemory>
    ensures { IfOk result (λ log. log.items ≡ logged_at (Binding b) row.now) }
{
    match row {
        Row::Deliver {
            binding,
            frames,
            ..
        } => {
            if *binding == b {
                one_entry(alloc, frames)
            } else {
                Ok(no_entry(alloc))
            }
        }
        _ => Ok(no_entry(alloc)),
    }
}

/// What a row adds to a module's log.
fn logged_at(alloc: Global, m: ModuleId, row: &Row) -> Result<Vec<Frames>, OutOfMemory>
    ensures { IfOk result (λ log. log.items ≡ logged_at m row.now) }
{
    match m {
        ModuleId::Miniport => logged_by_miniport(alloc, row),
        ModuleId::Filter(_) => Ok(no_entry(alloc)),
        ModuleId::Binding(b) => logged_by_binding(alloc, b, row),
    }
}

fn log_and(first: Vec<Frames>, others: Vec<Frames>) -> Result<Vec<Frames>, OutOfMemory>
    ensures { IfOk result (λ all. all.items ≡ first.items ++ others.items) }
{
    let mut all = first;
    for frames in others {
        all.push(frames)?;
    }
    Ok(all)
}

fn log_in_rows(alloc: Global, m: ModuleId, rows: &[Row]) -> Result<Vec<Frames>, OutOfMemory>
    ensures { IfOk result (λ log. log.items ≡ flat_map (logged_at m) rows.now) }
{
    match rows {
        [] => Ok(no_entry(alloc)),
        [row, others @ ..] => log_and(logged_at(alloc, m, row)?, log_in_rows(alloc, m, others)?),
    }
}

/// The log of a module, in order.
pub fn log_of(alloc: Global, turns: &[Turn], m: ModuleId) -> Result<Vec<Frames>, OutOfMemory>
    ensures { IfOk result (λ log. log.items ≡ log_of turns.now m) }
{
    match turns {
        [] => Ok(no_entry(alloc)),
        [turn, others @ ..] => log_and(
            log_in_rows(alloc, m, turn.rows.items())?,
            log_of(alloc, others, m)?,
        ),
    }
}
