//! One configuration.
ghost use Rattle.std.specs.Prelude.{◌≡◌, IfOk};
ghost use Rattle.std.specs.List.{list_all};
ghost use Rattle.stack_rules.specs.Outcome.{max_frame};
ghost use Rattle.promise_rules.specs.Rows.{all_rows};
ghost use Rattle.promise_rules.specs.Carried.{are_frames, is_carried_down, is_carried_up, keeps_configuration, has_one_configuration};

use crate::carried::{carried_down, carried_up};
use crate::configs::{config_of, filters_in, number_in};
use journal_types::{Frames, OutWay, Row, StackHead, Turn};
use ndis_base::OutOfMemory;
use plain_families::roots::root_of;
use plain_families::rows::{frames_in, issue_of};
use plain_parts::same::same_frames;
use plain_places::outcome::MAX_FRAME;
use std::alloc::Global;

fn max_frame(_head: &StackHead) -> usize
    ensures { result ≡ max_frame _head.now }
{
    MAX_FRAME
}

fn are_frames(frames: &Frames, made: Option<Frames>) -> bool
    ensures { result ≡ are_frames frames.now made }
{
    match made {
        None => false,
        Some(made) => same_frames(&made, frames),
    }
}

fn is_carried_down(
    alloc: Global,
    head: &StackHead,
    turns: &[Turn],
    root: u64,
    frames: &Frames,
) -> Result<bool, OutOfMemory>
    ensures { IfOk result (λ holds. holds ≡ is_carried_down head.now turns.now root frames.now) }
{
    let first = frames_in(alloc, issue_of(turns, root))?;
    let made = carried_down(
        alloc,
        max_frame(head),
        turns,
        filters_in(config_of(turns, root)),
        first,
    )?;
    Ok(are_frames(frames, made))
}

fn is_carried_up(
    alloc: Global,
    head: &StackHead,
    turns: &[Turn],
    root: u64,
    frames: &Frames,
) -> Result<bool, OutOfMemory>
    ensures { IfOk result (λ holds. holds ≡ is_carried_up head.now turns.now root frames.now) }
{
    let first = frames_in(alloc, issue_of(turns, root))?;
    let made = carried_up(
        alloc,
        max_frame(head),
        turns,
        filters_in(config_of(turns, root)),
        first,
    )?;
    Ok(are_frames(frames, made))
}

fn keeps_configuration(
    alloc: Global,
    head: &StackHead,
    turns: &[Turn],
    row: &Row,
) -> Result<bool, OutOfMemory>
    ensures { IfOk result (λ holds. holds ≡ keeps_configuration head.now turns.now row.now) }
{
    match row {
        Row::Issue { list, config, .. } => {
            Ok(config.0 == number_in(config_of(turns, root_of(turns, list.0))))
        }
        Row::Wire { list, frames } => {
            is_carried_down(alloc, head, turns, root_of(turns, list.0), frames)
        }
        Row::CrossOut { way, frames, .. } => match *way {
            OutWay::Down(list) => {
                is_carried_down(alloc, head, turns, root_of(turns, list.0), frames)
            }
            OutWay::Up => Ok(true),
        },
        Row::Deliver { list, frames, .. } => {
            is_carried_up(alloc, head, turns, root_of(turns, list.0), frames)
        }
        _ => Ok(true),
    }
}

fn keep_in_rows(
    alloc: Global,
    head: &StackHead,
    turns: &[Turn],
    rows: &[Row],
) -> Result<bool, OutOfMemory>
    ensures { IfOk result (λ hold. hold ≡ list_all (keeps_configuration head.now turns.now) rows.now) }
{
    match rows {
        [] => Ok(true),
        [row, others @ ..] => {
            if keeps_configuration(alloc, head, turns, row)? {
                keep_in_rows(alloc, head, turns, others)
            } else {
                Ok(false)
            }
        }
    }
}

fn keep_in(
    alloc: Global,
    head: &StackHead,
    whole: &[Turn],
    turns: &[Turn],
) -> Result<bool, OutOfMemory>
    ensures { IfOk result (λ hold. hold ≡ all_rows (keeps_configuration head.now whole.now) turns.now) }
{
    match turns {
        [] => Ok(true),
        [turn, others @ ..] => {
            if keep_in_rows(alloc, head, whole, turn.rows.items())? {
                keep_in(alloc, head, whole, others)
            } else {
                Ok(false)
            }
        }
    }
}

/// Whether each list is issued in the configuration in which its root is, and what a row shows on a wire or at a binding is
/// the root's frames as that configuration's filters make them.
pub fn has_one_configuration(
    alloc: Global,
    head: &StackHead,
    turns: &[Turn],
) -> Result<bool, OutOfMemory>
    ensures { IfOk result (λ holds. holds ≡ has_one_configuration head.now turns.now) }
{
    keep_in(alloc, head, turns, turns)
}
