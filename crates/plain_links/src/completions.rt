//! Requests and their clones.
ghost use Rattle.std.specs.Prelude.{◌≡◌, ◌==◌, ◌&&◌, IfOk, count_by, find, is_some, option_copied};
ghost use Rattle.std.specs.List.{list_all};
ghost use Rattle.promise_rules.specs.Rows.{count_rows};
ghost use Rattle.promise_rules.specs.Completions.{is_done, is_clone, gives, done_of, clone_in, same_oid_status, same_answer_as, same_answer, is_answered, completes_once, is_completed, are_completed};

use journal_types::{Row, Turn};
use ndis_base::{ModuleId, OidStatus, OidValue, OutOfMemory};
use plain_families::Wanted;
use plain_families::rows::{count_in, count_rows, first_in, first_row};
use plain_parts::same::same_bytes;

/// The row by which a request is done.
pub fn done_of(turns: &[Turn], n: u64) -> Option<&Row>
    ensures { option_copied result ≡ done_of turns.now n }
{
    first_row(turns, Wanted::OidDone(n))
}

fn clone_in(issue: Option<&Row>) -> Option<u64>
    ensures { result ≡ clone_in (option_copied issue.entry) }
{
    match issue {
        None => None,
        Some(issue) => match issue {
            Row::OidIssue { request, .. } => Some(request.0),
            _ => None,
        },
    }
}

fn same_oid_status(a: OidStatus, b: OidStatus) -> bool
    ensures { result ≡ same_oid_status a b }
{
    match a {
        OidStatus::Success => matches!(b, OidStatus::Success),
        OidStatus::NotSupported => matches!(b, OidStatus::NotSupported),
        OidStatus::BadLength => matches!(b, OidStatus::BadLength),
    }
}

fn same_answer_as(status: OidStatus, value: &OidValue, done: Option<&Row>) -> bool
    ensures { result ≡ same_answer_as status value.now (option_copied done.entry) }
{
    match done {
        None => false,
        Some(done) => match done {
            Row::OidDone {
                status: told,
                value: answer,
                ..
            } => same_oid_status(*told, status) && same_bytes(answer.bytes(), value.bytes()),
            _ => false,
        },
    }
}

fn same_answer(turns: &[Turn], done: Option<&Row>, clone: Option<u64>) -> bool
    ensures { result ≡ same_answer turns.now (option_copied done.entry) clone }
{
    match done {
        None => true,
        Some(done) => match done {
            Row::OidDone { status, value, .. } => match clone {
                None => true,
                Some(clone) => same_answer_as(*status, value, done_of(turns, clone)),
            },
            _ => true,
        },
    }
}

/// Whether a request that is given to the miniport is done in this turn, without a clone.
fn is_answered_at_once(turns: &[Turn], rows: &[Row], n: u64) -> Result<bool, OutOfMemory>
    ensures { IfOk result (λ holds. holds ≡ (count_by (is_done n) rows.now == 1 && count_rows (is_clone n) turns.now == 0)) }
{
    let done = count_in(turns, Wanted::OidDone(n), rows);
    let clones = count_rows(turns, Wanted::OidClone(n))?;
    Ok(done == 1 && clones == 0)
}

/// Whether a request that is given to a filter has one clone, which is issued in this turn, and the clone's
/// answer.
fn is_answered_by_clone(turns: &[Turn], rows: &[Row], n: u64) -> Result<bool, OutOfMemory>
    ensures { IfOk result (λ holds. holds ≡ (count_by (is_clone n) rows.now == 1 && (count_rows (is_clone n) turns.now == 1 && same_answer turns.now (done_of turns.now n) (clone_in (find (is_clone n) rows.now))))) }
{
    let here = count_in(turns, Wanted::OidClone(n), rows);
    let clones = count_rows(turns, Wanted::OidClone(n))?;
    let clone = clone_in(first_in(turns, Wanted::OidClone(n), rows));
    Ok(here == 1 && (clones == 1 && same_answer(turns, done_of(turns, n), clone)))
}

/// Whether a request that is done is given and done once.
fn is_done_once(turns: &[Turn], n: u64) -> Result<bool, OutOfMemory>
    ensures { IfOk result (λ holds. holds ≡ (count_rows (is_done n) turns.now == 1 && count_rows (gives n) turns.now == 1)) }
{
    let done = count_rows(turns, Wanted::OidDone(n))?;
    let given = count_rows(turns, Wanted::OidGive(n))?;
    Ok(done == 1 && given == 1)
}

fn is_answered(turns: &[Turn], rows: &[Row], row: &Row) -> Result<bool, OutOfMemory>
    ensures { IfOk result (λ holds. holds ≡ is_answered turns.now rows.now row.now) }
{
    match row {
        Row::OidGive { request, module } => match *module {
            ModuleId::Miniport => is_answered_at_once(turns, rows, request.0),
            ModuleId::Filter(_) => is_answered_by_clone(turns, rows, request.0),
            ModuleId::Binding(_) => Ok(false),
        },
        Row::OidDone { request, .. } => is_done_once(turns, request.0),
        _ => Ok(true),
    }
}

fn are_answered(turns: &[Turn], turn: &[Row], rows: &[Row]) -> Result<bool, OutOfMemory>
    ensures { IfOk result (λ hold. hold ≡ list_all (is_answered turns.now turn.now) rows.now) }
{
    match rows {
        [] => Ok(true),
        [row, others @ ..] => {
            if is_answered(turns, turn, row)? {
                are_answered(turns, turn, others)
            } else {
                Ok(false)
            }
        }
    }
}

fn complete_once_in(whole: &[Turn], turns: &[Turn]) -> Result<bool, OutOfMemory>
    ensures { IfOk result (λ hold. hold ≡ list_all (λ t. list_all (is_answered whole.now t.rows) t.rows) turns.now) }
{
    match turns {
        [] => Ok(true),
        [turn, others @ ..] => {
            let rows = turn.rows.items();
            if are_answered(whole, rows, rows)? {
                complete_once_in(whole, others)
            } else {
                Ok(false)
            }
        }
    }
}

/// Whether each request completes once at most, by its own clone.
pub fn completes_once(turns: &[Turn]) -> Result<bool, OutOfMemory>
    ensures { IfOk result (λ holds. holds ≡ completes_once turns.now) }
{
    complete_once_in(turns, turns)
}

fn has_done_row(turns: &[Turn], n: u64) -> bool
    ensures { result ≡ is_some (done_of turns.now n) }
{
    match done_of(turns, n) {
        None => false,
        Some(_) => true,
    }
}

fn is_completed(turns: &[Turn], row: &Row) -> bool
    ensures { result ≡ is_completed turns.now row.now }
{
    match row {
        Row::OidIssue { request, .. } => has_done_row(turns, request.0),
        _ => true,
    }
}

fn are_completed_at(turns: &[Turn], rows: &[Row]) -> bool
    ensures { result ≡ list_all (is_completed turns.now) rows.now }
{
    match rows {
        [] => true,
        [row, others @ ..] => is_completed(turns, row) && are_completed_at(turns, others),
    }
}

fn are_completed_in(whole: &[Turn], turns: &[Turn]) -> bool
    ensures { result ≡ list_all (λ t. list_all (is_completed whole.now) t.rows) turns.now }
{
    match turns {
        [] => true,
        [turn, others @ ..] => are_completed_at(whole, turn.rows.items())
            && are_completed_in(whole, others),
    }
}

/// Whether each request is done.
pub fn are_completed(turns: &[Turn]) -> bool
    ensures { result ≡ are_completed turns.now }
{
    are_completed_in(turns, turns)
}
