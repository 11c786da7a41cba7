//! The fate of each list.
ghost use Rattle.std.specs.Prelude.{◌≡◌, ◌||◌, ◌&&◌, not, IfOk};
ghost use Rattle.std.specs.List.{list_all};
ghost use Rattle.promise_rules.specs.Rows.{all_rows, is_home_again};
ghost use Rattle.promise_rules.specs.Families.{is_over};
ghost use Rattle.promise_rules.specs.Fates.{is_sent_once, is_received, is_home_as_received, has_fate, has_fate_at, has_fates};

use crate::receives::{is_home_as_received, is_received};
use crate::sends::is_sent_once;
use journal_types::{Row, StackHead, Turn};
use ndis_base::{Direction, Origin, OutOfMemory};
use plain_families::families::is_over;
use plain_families::rows::is_home_again;
use std::alloc::Global;

fn has_fate_down(turns: &[Turn], root: u64) -> Result<bool, OutOfMemory>
    ensures { IfOk result (λ holds. holds ≡ (not (is_home_again turns.now root) || is_sent_once turns.now root)) }
{
    if is_home_again(turns, root) {
        is_sent_once(turns, root)
    } else {
        Ok(true)
    }
}

fn has_fate_up(
    alloc: Global,
    head: &StackHead,
    turns: &[Turn],
    root: u64,
    direction: Direction,
) -> Result<bool, OutOfMemory>
    ensures { IfOk result (λ holds. holds ≡ (not (is_over turns.now root) || (is_received head.now turns.now root && is_home_as_received turns.now root direction))) }
{
    if is_over(turns, root) {
        let received = is_received(alloc, head, turns, root)?;
        Ok(received && is_home_as_received(turns, root, direction))
    } else {
        Ok(true)
    }
}

fn has_fate(
    alloc: Global,
    head: &StackHead,
    turns: &[Turn],
    root: u64,
    direction: Direction,
) -> Result<bool, OutOfMemory>
    ensures { IfOk result (λ holds. holds ≡ has_fate head.now turns.now root direction) }
{
    match direction {
        Direction::Down => has_fate_down(turns, root),
        Direction::Up => has_fate_up(alloc, head, turns, root, Direction::Up),
        Direction::Lent => has_fate_up(alloc, head, turns, root, Direction::Lent),
    }
}

fn has_fate_at(
    alloc: Global,
    head: &StackHead,
    turns: &[Turn],
    row: &Row,
) -> Result<bool, OutOfMemory>
    ensures { IfOk result (λ holds. holds ≡ has_fate_at head.now turns.now row.now) }
{
    match row {
        Row::Issue {
            list,
            direction,
            origin,
            ..
        } => match *origin {
            Origin::Root => has_fate(alloc, head, turns, list.0, *direction),
            _ => Ok(true),
        },
        _ => Ok(true),
    }
}

fn have_fates_at(
    alloc: Global,
    head: &StackHead,
    turns: &[Turn],
    rows: &[Row],
) -> Result<bool, OutOfMemory>
    ensures { IfOk result (λ holds. holds ≡ list_all (has_fate_at head.now turns.now) rows.now) }
{
    match rows {
        [] => Ok(true),
        [row, others @ ..] => {
            if has_fate_at(alloc, head, turns, row)? {
                have_fates_at(alloc, head, turns, others)
            } else {
                Ok(false)
            }
        }
    }
}

fn have_fates_in(
    alloc: Global,
    head: &StackHead,
    whole: &[Turn],
    turns: &[Turn],
) -> Result<bool, OutOfMemory>
    ensures { IfOk result (λ holds. holds ≡ all_rows (has_fate_at head.now whole.now) turns.now) }
{
    match turns {
        [] => Ok(true),
        [turn, others @ ..] => {
            if have_fates_at(alloc, head, whole, turn.rows.items())? {
                have_fates_in(alloc, head, whole, others)
            } else {
                Ok(false)
            }
        }
    }
}

/// Whether each root of the journal met its fate: what is sent is on the wire once, or was turned back, or
/// crossed to another stack; what is received is delivered to all that take it, or was turned back.
pub fn has_fates(alloc: Global, head: &StackHead, turns: &[Turn]) -> Result<bool, OutOfMemory>
    ensures { IfOk result (λ holds. holds ≡ has_fates head.now turns.now) }
{
    have_fates_in(alloc, head, turns, turns)
}
