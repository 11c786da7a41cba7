//! What became of a list that was sent.
ghost use Rattle.std.specs.Prelude.{◌≡◌, ◌+◌, IfOk, count_by, unwrap_or};
ghost use Rattle.ndis_base.specs.declared.ListStatus.TheVariants.{Success};
ghost use Rattle.promise_rules.specs.Rows.{count_rows};
ghost use Rattle.promise_rules.specs.Fates.{is_wire_of, is_turned_back, took, crossing_of, ends_crossing, first_status, crossed_as, turned_back_as, sent_as, is_sent_once};

use journal_types::{Event, Reply, Turn};
use ndis_base::{ListStatus, OutOfMemory};
use plain_families::Wanted;
use plain_families::rows::{count_rows, first_row, home_of, is_status, status_in};
use plain_parts::rows::sum_of;

/// Whether a list of the family was taken to another stack in a message.
fn took(turns: &[Turn], root: u64, message: u64) -> bool
    ensures { result ≡ took turns.now root message }
{
    match first_row(turns, Wanted::FamilyCrossOut(root, message)) {
        None => false,
        Some(_) => true,
    }
}

/// The status with which a turn ends a crossing of the family.
fn crossing_of(turns: &[Turn], root: u64, event: &Event, reply: &Reply) -> Option<ListStatus>
    ensures { result ≡ crossing_of turns.now root event.now reply.now }
{
    match event {
        Event::CrossDone { message, status } => match reply {
            Reply::Ok => {
                if took(turns, root, message.0) {
                    Some(*status)
                } else {
                    None
                }
            }
            _ => None,
        },
        _ => None,
    }
}

fn ends_crossing(turns: &[Turn], root: u64, turn: &Turn) -> bool
    ensures { result ≡ ends_crossing turns.now root turn.now }
{
    match crossing_of(turns, root, &turn.event, &turn.reply) {
        None => false,
        Some(_) => true,
    }
}

fn first_status(first: Option<ListStatus>, other: Option<ListStatus>) -> Option<ListStatus>
    ensures { result ≡ first_status first other }
{
    match first {
        None => other,
        Some(status) => Some(status),
    }
}

fn crossed_from(whole: &[Turn], root: u64, turns: &[Turn]) -> Option<ListStatus>
    ensures { result ≡ crossed_as whole.now root turns.now }
{
    match turns {
        [] => None,
        [turn, others @ ..] => first_status(
            crossing_of(whole, root, &turn.event, &turn.reply),
            crossed_from(whole, root, others),
        ),
    }
}

fn count_crossings(whole: &[Turn], root: u64, turns: &[Turn]) -> usize
    ensures { result ≡ count_by (ends_crossing whole.now root) turns.now }
{
    let mut n = 0;
    for turn in turns {
        if ends_crossing(whole, root, turn) {
            n += 1;
        }
    }
    n
}

/// The status with which the family was turned back.
pub fn turned_back_as(turns: &[Turn], root: u64) -> Option<ListStatus>
    ensures { result ≡ turned_back_as turns.now root }
{
    status_in(first_row(turns, Wanted::FamilyTurnBack(root)))
}

/// A status, or Success where none is told.
pub fn or_success(status: Option<ListStatus>) -> ListStatus
    ensures { result ≡ unwrap_or status Success }
{
    match status {
        None => ListStatus::Success,
        Some(status) => status,
    }
}

fn sent_as(turns: &[Turn], root: u64) -> ListStatus
    ensures { result ≡ sent_as turns.now root }
{
    or_success(first_status(
        turned_back_as(turns, root),
        crossed_from(turns, root, turns),
    ))
}

/// How often the family was on the wire, was turned back, and ended a crossing.
fn count_endings(turns: &[Turn], root: u64) -> Result<u64, OutOfMemory>
    ensures { IfOk result (λ n. n ≡ count_rows (is_wire_of turns.now root) turns.now + count_rows (is_turned_back turns.now root) turns.now + count_by (ends_crossing turns.now root) turns.now) }
{
    let wires = count_rows(turns, Wanted::FamilyWire(root))?;
    let backs = count_rows(turns, Wanted::FamilyTurnBack(root))?;
    let crossings = count_crossings(turns, root, turns) as u64;
    sum_of(sum_of(wires, backs)?, crossings)
}

/// Whether a send that is home had one ending, and is home with its status.
pub fn is_sent_once(turns: &[Turn], root: u64) -> Result<bool, OutOfMemory>
    ensures { IfOk result (λ holds. holds ≡ is_sent_once turns.now root) }
{
    let endings = count_endings(turns, root)?;
    Ok(endings == 1 && is_status(sent_as(turns, root), status_in(home_of(turns, root))))
}
