//! What became of a list that was received.
ghost use Rattle.std.specs.Prelude.{◌≡◌, IfOk, Some, option_map};
ghost use Rattle.promise_rules.specs.Fates.{reaches, is_delivered_by, count_deliveries, is_delivered, is_received, received_as, is_home_as_received};

use crate::deliveries::{are_deliveries, deliveries_of, how_of};
use crate::sends::{or_success, turned_back_as};
use crate::settled::takers_in;
use journal_types::{How, StackHead, Turn};
use ndis_base::{Direction, ListStatus, OutOfMemory};
use plain_families::Wanted;
use plain_families::families::last_of_family;
use plain_families::rows::{
    count_rows, first_row, frames_in, home_of, is_status, issue_of, status_in,
};
use plain_net::PlainNet;
use std::alloc::Global;

fn reaches(last: How, bindings: Option<Vec<u32>>, deliveries: &[(u32, How)]) -> bool
    ensures { result ≡ reaches last (option_map (λ v. v.items) bindings) deliveries.now }
{
    match bindings {
        None => false,
        Some(bindings) => are_deliveries(last, bindings.as_slice(), deliveries),
    }
}

fn reaches_takers(
    alloc: Global,
    head: &StackHead,
    turns: &[Turn],
    n: u64,
) -> Result<bool, OutOfMemory>
    ensures { IfOk result (λ holds. holds ≡ is_delivered_by head.now turns.now (Some n)) }
{
    let issue = issue_of(turns, n);
    let frames = frames_in(alloc, issue)?;
    let start = PlainNet::start(alloc, head)?;
    let bindings = takers_in(alloc, start, turns, n, &frames)?;
    let deliveries = deliveries_of(alloc, turns, n)?;
    Ok(reaches(how_of(issue), bindings, deliveries.as_slice()))
}

fn is_delivered_by(
    alloc: Global,
    head: &StackHead,
    turns: &[Turn],
    last: Option<u64>,
) -> Result<bool, OutOfMemory>
    ensures { IfOk result (λ holds. holds ≡ is_delivered_by head.now turns.now last) }
{
    match last {
        None => Ok(false),
        Some(n) => reaches_takers(alloc, head, turns, n),
    }
}

fn count_deliveries(alloc: Global, turns: &[Turn], last: Option<u64>) -> Result<u64, OutOfMemory>
    ensures { IfOk result (λ n. n ≡ count_deliveries turns.now last) }
{
    match last {
        None => Ok(0),
        Some(n) => Ok(deliveries_of(alloc, turns, n)?.len() as u64),
    }
}

/// Whether the family's last list reached just the bindings that take it, and no other list any.
fn is_delivered(
    alloc: Global,
    head: &StackHead,
    turns: &[Turn],
    root: u64,
) -> Result<bool, OutOfMemory>
    ensures { IfOk result (λ holds. holds ≡ is_delivered head.now turns.now root) }
{
    let last = last_of_family(turns, root);
    let reaches = is_delivered_by(alloc, head, turns, last)?;
    let all = count_rows(turns, Wanted::FamilyDeliver(root))?;
    let of_last = count_deliveries(alloc, turns, last)?;
    Ok(reaches && all == of_last)
}

/// Whether a receive whose family is over was turned back once, or delivered.
pub fn is_received(
    alloc: Global,
    head: &StackHead,
    turns: &[Turn],
    root: u64,
) -> Result<bool, OutOfMemory>
    ensures { IfOk result (λ holds. holds ≡ is_received head.now turns.now root) }
{
    let backs = count_rows(turns, Wanted::FamilyTurnBack(root))?;
    if backs == 0 {
        is_delivered(alloc, head, turns, root)
    } else {
        let deliveries = count_rows(turns, Wanted::FamilyDeliver(root))?;
        Ok(backs == 1 && deliveries == 0)
    }
}

fn received_as(turns: &[Turn], root: u64, direction: Direction) -> ListStatus
    ensures { result ≡ received_as turns.now root direction }
{
    match direction {
        Direction::Lent => or_success(status_in(first_row(turns, Wanted::TurnBack(root)))),
        Direction::Up => or_success(turned_back_as(turns, root)),
        Direction::Down => or_success(turned_back_as(turns, root)),
    }
}

/// Whether a receive is home with the status of its fate.
pub fn is_home_as_received(turns: &[Turn], root: u64, direction: Direction) -> bool
    ensures { result ≡ is_home_as_received turns.now root direction }
{
    is_status(
        received_as(turns, root, direction),
        status_in(home_of(turns, root)),
    )
}
