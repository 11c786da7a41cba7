//! The first row of a kind, and how many there are.
ghost use Rattle.std.specs.Prelude.{◌≡◌, IfOk, find, count_by, option_copied};
ghost use Rattle.promise_rules.specs.Rows.{first_row, count_rows, is_issue, is_home, issue_of, home_of, is_home_again, frames_in, status_in, same_status, is_status};
ghost use Rattle.promise_rules.specs.Fates.{is_wire_of, is_turned_back, is_delivery_of, takes_family, is_back_of};
ghost use Rattle.promise_rules.specs.Completions.{is_done, is_of_parent, is_clone, gives};
ghost use Rattle.promise_rules.specs.Calls.{asks};
ghost use Rattle.plain_families.specs.Wanted.{test_of};

use crate::roots::root_of;
use journal_types::{Frames, OutWay, Row, Turn};
use ndis_base::{ListStatus, OidNo, OutOfMemory};
use plain_parts::copies::copy_frames;
use plain_parts::rows::sum_of;
use std::alloc::Global;

/// A kind of rows that a promise asks for.
#[derive(Clone, Copy, PartialEq, Eq)]
pub enum Wanted {
    /// The row that issues the list of this number.
    Issue(u64),
    /// The row by which the list of this number is home.
    Home(u64),
    /// A row that turns back the list of this number.
    TurnBack(u64),
    /// A row that shows a list of the family of this root on the wire.
    FamilyWire(u64),
    /// A row that turns back a list of the family of this root.
    FamilyTurnBack(u64),
    /// A row that delivers a list of the family of this root.
    FamilyDeliver(u64),
    /// A row that takes a list of the family of this root to another stack in the message of this
    /// number.
    FamilyCrossOut(u64, u64),
    /// The row by which the request of this number is done.
    OidDone(u64),
    /// A row that issues a clone of the request of this number.
    OidClone(u64),
    /// The row that gives the request of this number to a module.
    OidGive(u64),
    /// The row that issues the request of this number.
    OidIssue(u64),
}

/// Whether a row issues the list of this number.
pub fn is_issue(n: u64, row: &Row) -> bool
    ensures { result ≡ is_issue n row.now }
{
    match row {
        Row::Issue { list, .. } => list.0 == n,
        _ => false,
    }
}

fn is_home(n: u64, row: &Row) -> bool
    ensures { result ≡ is_home n row.now }
{
    match row {
        Row::Home { list, .. } => list.0 == n,
        _ => false,
    }
}

fn is_back_of(n: u64, row: &Row) -> bool
    ensures { result ≡ is_back_of n row.now }
{
    match row {
        Row::TurnBack { list, .. } => list.0 == n,
        _ => false,
    }
}

fn is_wire_of(turns: &[Turn], root: u64, row: &Row) -> bool
    ensures { result ≡ is_wire_of turns.now root row.now }
{
    match row {
        Row::Wire { list, .. } => root_of(turns, list.0) == root,
        _ => false,
    }
}

fn is_turned_back(turns: &[Turn], root: u64, row: &Row) -> bool
    ensures { result ≡ is_turned_back turns.now root row.now }
{
    match row {
        Row::TurnBack { list, .. } => root_of(turns, list.0) == root,
        _ => false,
    }
}

fn is_delivery_of(turns: &[Turn], root: u64, row: &Row) -> bool
    ensures { result ≡ is_delivery_of turns.now root row.now }
{
    match row {
        Row::Deliver { list, .. } => root_of(turns, list.0) == root,
        _ => false,
    }
}

fn takes_family(turns: &[Turn], root: u64, message: u64, row: &Row) -> bool
    ensures { result ≡ takes_family turns.now root message row.now }
{
    match row {
        Row::CrossOut {
            message: m,
            way,
            ..
        } => match *way {
            OutWay::Down(list) => m.0 == message && root_of(turns, list.0) == root,
            OutWay::Up => false,
        },
        _ => false,
    }
}

fn is_of_parent(n: u64, parent: Option<OidNo>) -> bool
    ensures { result ≡ is_of_parent n parent }
{
    match parent {
        None => false,
        Some(parent) => parent.0 == n,
    }
}

fn is_done(n: u64, row: &Row) -> bool
    ensures { result ≡ is_done n row.now }
{
    match row {
        Row::OidDone { request, .. } => request.0 == n,
        _ => false,
    }
}

fn is_clone(n: u64, row: &Row) -> bool
    ensures { result ≡ is_clone n row.now }
{
    match row {
        Row::OidIssue { parent, .. } => is_of_parent(n, *parent),
        _ => false,
    }
}

fn gives(n: u64, row: &Row) -> bool
    ensures { result ≡ gives n row.now }
{
    match row {
        Row::OidGive { request, .. } => request.0 == n,
        _ => false,
    }
}

fn asks(n: u64, row: &Row) -> bool
    ensures { result ≡ asks n row.now }
{
    match row {
        Row::OidIssue { request, .. } => request.0 == n,
        _ => false,
    }
}

/// Whether a row is a wanted one.
pub fn passes(turns: &[Turn], wanted: Wanted, row: &Row) -> bool
    ensures { result ≡ test_of turns.now wanted row.now }
{
    match wanted {
        Wanted::Issue(n) => is_issue(n, row),
        Wanted::Home(n) => is_home(n, row),
        Wanted::TurnBack(n) => is_back_of(n, row),
        Wanted::FamilyWire(root) => is_wire_of(turns, root, row),
        Wanted::FamilyTurnBack(root) => is_turned_back(turns, root, row),
        Wanted::FamilyDeliver(root) => is_delivery_of(turns, root, row),
        Wanted::FamilyCrossOut(root, message) => takes_family(turns, root, message, row),
        Wanted::OidDone(n) => is_done(n, row),
        Wanted::OidClone(n) => is_clone(n, row),
        Wanted::OidGive(n) => gives(n, row),
        Wanted::OidIssue(n) => asks(n, row),
    }
}

/// The first wanted row of a turn.
pub fn first_in<'a>(turns: &[Turn], wanted: Wanted, rows: &'a [Row]) -> Option<&'a Row>
    ensures { option_copied result ≡ find (test_of turns.now wanted) rows.now }
{
    for row in rows {
        if passes(turns, wanted, row) {
            return Some(row);
        }
    }
    None
}

fn first_from<'a>(whole: &[Turn], wanted: Wanted, turns: &'a [Turn]) -> Option<&'a Row>
    ensures { option_copied result ≡ first_row (test_of whole.now wanted) turns.now }
{
    match turns {
        [] => None,
        [turn, others @ ..] => match first_in(whole, wanted, turn.rows.items()) {
            Some(row) => Some(row),
            None => first_from(whole, wanted, others),
        },
    }
}

/// The first wanted row of a journal.
pub fn first_row(turns: &[Turn], wanted: Wanted) -> Option<&Row>
    ensures { option_copied result ≡ first_row (test_of turns.now wanted) turns.now }
{
    first_from(turns, wanted, turns)
}

/// How many wanted rows a turn has.
pub fn count_in(turns: &[Turn], wanted: Wanted, rows: &[Row]) -> usize
    ensures { result ≡ count_by (test_of turns.now wanted) rows.now }
{
    let mut n = 0;
    for row in rows {
        if passes(turns, wanted, row) {
            n += 1;
        }
    }
    n
}

fn count_from(whole: &[Turn], wanted: Wanted, turns: &[Turn]) -> Result<u64, OutOfMemory>
    ensures { IfOk result (λ n. n ≡ count_rows (test_of whole.now wanted) turns.now) }
{
    match turns {
        [] => Ok(0),
        [turn, others @ ..] => sum_of(
            count_in(whole, wanted, turn.rows.items()) as u64,
            count_from(whole, wanted, others)?,
        ),
    }
}

/// How many wanted rows a journal has. A count past the greatest number counts as want of memory.
pub fn count_rows(turns: &[Turn], wanted: Wanted) -> Result<u64, OutOfMemory>
    ensures { IfOk result (λ n. n ≡ count_rows (test_of turns.now wanted) turns.now) }
{
    count_from(turns, wanted, turns)
}

/// The row by which a list is issued.
pub fn issue_of(turns: &[Turn], n: u64) -> Option<&Row>
    ensures { option_copied result ≡ issue_of turns.now n }
{
    first_row(turns, Wanted::Issue(n))
}

/// The row by which a list is home.
pub fn home_of(turns: &[Turn], n: u64) -> Option<&Row>
    ensures { option_copied result ≡ home_of turns.now n }
{
    first_row(turns, Wanted::Home(n))
}

pub fn is_home_again(turns: &[Turn], n: u64) -> bool
    ensures { result ≡ is_home_again turns.now n }
{
    match home_of(turns, n) {
        None => false,
        Some(_) => true,
    }
}

/// The frames of a row that issues a list, and none for any other.
pub fn frames_in(alloc: Global, row: Option<&Row>) -> Result<Frames, OutOfMemory>
    ensures { IfOk result (λ frames. frames ≡ frames_in (option_copied row.entry)) }
{
    match row {
        None => Ok(Frames::of(Vec::new(alloc))),
        Some(row) => match row {
            Row::Issue { frames, .. } => copy_frames(alloc, frames),
            _ => Ok(Frames::of(Vec::new(alloc))),
        },
    }
}

/// The status that a row tells of a list.
pub fn status_in(row: Option<&Row>) -> Option<ListStatus>
    ensures { result ≡ status_in (option_copied row.entry) }
{
    match row {
        None => None,
        Some(row) => match row {
            Row::Home { status, .. } => Some(*status),
            Row::TurnBack { status, .. } => Some(*status),
            _ => None,
        },
    }
}

pub fn same_status(a: ListStatus, b: ListStatus) -> bool
    ensures { result ≡ same_status a b }
{
    match a {
        ListStatus::Success => matches!(b, ListStatus::Success),
        ListStatus::Paused => matches!(b, ListStatus::Paused),
        ListStatus::Aborted => matches!(b, ListStatus::Aborted),
        ListStatus::Dropped => matches!(b, ListStatus::Dropped),
        ListStatus::Resources => matches!(b, ListStatus::Resources),
    }
}

/// Whether a status is told, and is the wanted one.
pub fn is_status(wanted: ListStatus, told: Option<ListStatus>) -> bool
    ensures { result ≡ is_status wanted told }
{
    match told {
        None => false,
        Some(told) => same_status(told, wanted),
    }
}
