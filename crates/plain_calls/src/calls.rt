//! The calls of drivers that rows stand for.
ghost use Rattle.std.specs.Prelude.{◌≡◌, ◌++◌, [], IfOk, option_copied};
ghost use Rattle.promise_rules.specs.Rows.{first_row, issue_of};
ghost use Rattle.promise_rules.specs.Completions.{gives};
ghost use Rattle.promise_rules.specs.Calls.{asks, call, called_by, received_as, direction_in, home_call, holder_call, asker_call, calls_at};

use journal_types::{Handler, How, Row, Turn};
use ndis_base::{Direction, ModuleId, OutOfMemory};
use plain_families::Wanted;
use plain_families::rows::{first_row, issue_of};
use promise_rules::{Call, Called};
use std::alloc::Global;

fn call(alloc: Global, m: ModuleId, what: Called) -> Result<Vec<Call>, OutOfMemory>
    ensures { IfOk result (λ calls. calls.items ≡ call m what) }
{
    let mut calls = Vec::new(alloc);
    calls.push(Call { module_id: m, what })?;
    Ok(calls)
}

fn no_calls(alloc: Global) -> Vec<Call>
    ensures { result.items ≡ [] }
{
    Vec::new(alloc)
}

fn calls_and(first: Vec<Call>, others: Vec<Call>) -> Result<Vec<Call>, OutOfMemory>
    ensures { IfOk result (λ all. all.items ≡ first.items ++ others.items) }
{
    let mut all = first;
    for call in others {
        all.push(call)?;
    }
    Ok(all)
}

fn called_by(handler: Handler) -> Called
    ensures { result ≡ called_by handler }
{
    match handler {
        Handler::Send => Called::Send,
        Handler::SendComplete => Called::SendComplete,
        Handler::Receive => Called::Receive,
        Handler::ReceiveLent => Called::ReceiveLent,
        Handler::Returned => Called::Returned,
    }
}

fn received_as(how: How) -> Called
    ensures { result ≡ received_as how }
{
    match how {
        How::Own => Called::Receive,
        How::Lent => Called::ReceiveLent,
    }
}

fn direction_in(issue: Option<&Row>) -> Direction
    ensures { result ≡ direction_in (option_copied issue.entry) }
{
    match issue {
        None => Direction::Lent,
        Some(issue) => match issue {
            Row::Issue { direction, .. } => *direction,
            _ => Direction::Lent,
        },
    }
}

/// A list that is home is its owner's again.
fn home_call(alloc: Global, owner: ModuleId, direction: Direction) -> Result<Vec<Call>, OutOfMemory>
    ensures { IfOk result (λ calls. calls.items ≡ home_call owner direction) }
{
    match direction {
        Direction::Down => call(alloc, owner, Called::SendComplete),
        Direction::Up => call(alloc, owner, Called::Returned),
        Direction::Lent => Ok(no_calls(alloc)),
    }
}

/// The list of this number came home to its owner.
fn came_home(
    alloc: Global,
    turns: &[Turn],
    owner: ModuleId,
    n: u64,
) -> Result<Vec<Call>, OutOfMemory>
    ensures { IfOk result (λ calls. calls.items ≡ home_call owner (direction_in (issue_of turns.now n))) }
{
    home_call(alloc, owner, direction_in(issue_of(turns, n)))
}

/// A filter that was given the request completes it.
fn holder_call(alloc: Global, give: Option<&Row>) -> Result<Vec<Call>, OutOfMemory>
    ensures { IfOk result (λ calls. calls.items ≡ holder_call (option_copied give.entry)) }
{
    match give {
        None => Ok(no_calls(alloc)),
        Some(give) => match give {
            Row::OidGive { module, .. } => match *module {
                ModuleId::Filter(f) => call(alloc, ModuleId::Filter(f), Called::OidComplete),
                _ => Ok(no_calls(alloc)),
            },
            _ => Ok(no_calls(alloc)),
        },
    }
}

/// A request that is no clone completes at its binding.
fn asker_call(alloc: Global, issue: Option<&Row>) -> Result<Vec<Call>, OutOfMemory>
    ensures { IfOk result (λ calls. calls.items ≡ asker_call (option_copied issue.entry)) }
{
    match issue {
        None => Ok(no_calls(alloc)),
        Some(issue) => match issue {
            Row::OidIssue {
                parent,
                binding,
                ..
            } => match *parent {
                None => call(alloc, ModuleId::Binding(*binding), Called::OidComplete),
                Some(_) => Ok(no_calls(alloc)),
            },
            _ => Ok(no_calls(alloc)),
        },
    }
}

/// A request that is done completes at the filter that it was given to, and at its binding.
fn completed(alloc: Global, turns: &[Turn], n: u64) -> Result<Vec<Call>, OutOfMemory>
    ensures { IfOk result (λ calls. calls.items ≡ holder_call (first_row (gives n) turns.now) ++ asker_call (first_row (asks n) turns.now)) }
{
    calls_and(
        holder_call(alloc, first_row(turns, Wanted::OidGive(n)))?,
        asker_call(alloc, first_row(turns, Wanted::OidIssue(n)))?,
    )
}

/// The calls that a row stands for.
pub fn calls_at(alloc: Global, turns: &[Turn], row: &Row) -> Result<Vec<Call>, OutOfMemory>
    ensures { IfOk result (λ calls. calls.items ≡ calls_at turns.now row.now) }
{
    match row {
        Row::Give {
            module,
            handler,
            ..
        } => call(alloc, *module, called_by(*handler)),
        Row::Home { list, owner, .. } => came_home(alloc, turns, *owner, list.0),
        Row::Deliver { binding, how, .. } => {
            call(alloc, ModuleId::Binding(*binding), received_as(*how))
        }
        Row::OidGive { module, .. } => call(alloc, *module, Called::Oid),
        Row::OidDone { request, .. } => completed(alloc, turns, request.0),
        Row::Seen { module, .. } => call(alloc, *module, Called::Status),
        _ => Ok(no_calls(alloc)),
    }
}
