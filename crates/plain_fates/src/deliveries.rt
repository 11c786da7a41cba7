//! To whom a list is delivered, and how.
ghost use Rattle.std.specs.Prelude.{◌≡◌, IfOk, ◌++◌, flat_map, option_copied};
ghost use Rattle.promise_rules.specs.Fates.{delivered_at, deliveries_of, is_lent_issue, same_how, how_before, are_deliveries, how_of};

use journal_types::{How, Row, Turn};
use ndis_base::{Direction, OutOfMemory};
use std::alloc::Global;

fn delivered_in(alloc: Global, n: u64, rows: &[Row]) -> Result<Vec<(u32, How)>, OutOfMemory>
    ensures { IfOk result (λ deliveries. deliveries.items ≡ flat_map (delivered_at n) rows.now) }
{
    match rows {
        [] => Ok(Vec::new(alloc)),
        [row, others @ ..] => {
            let mut deliveries = delivered_in(alloc, n, others)?;
            if let Row::Deliver {
                list,
                binding,
                how,
                ..
            } = row
            {
                if list.0 == n {
                    deliveries.insert(0, (*binding, *how))?;
                }
            }
            Ok(deliveries)
        }
    }
}

fn deliveries_and(
    first: Vec<(u32, How)>,
    others: Vec<(u32, How)>,
) -> Result<Vec<(u32, How)>, OutOfMemory>
    ensures { IfOk result (λ all. all.items ≡ first.items ++ others.items) }
{
    let mut all = first;
    for delivery in others {
        all.push(delivery)?;
    }
    Ok(all)
}

/// The bindings to which a list is delivered, and how, in the order of the rows.
pub fn deliveries_of(alloc: Global, turns: &[Turn], n: u64) -> Result<Vec<(u32, How)>, OutOfMemory>
    ensures { IfOk result (λ deliveries. deliveries.items ≡ deliveries_of turns.now n) }
{
    match turns {
        [] => Ok(Vec::new(alloc)),
        [turn, others @ ..] => deliveries_and(
            delivered_in(alloc, n, turn.rows.items())?,
            deliveries_of(alloc, others, n)?,
        ),
    }
}

fn is_lent_issue(issue: Option<&Row>) -> bool
    ensures { result ≡ is_lent_issue (option_copied issue.entry) }
{
    match issue {
        None => false,
        Some(issue) => match issue {
            Row::Issue { direction, .. } => matches!(*direction, Direction::Lent),
            _ => false,
        },
    }
}

/// How the last binding gets a list.
pub fn how_of(issue: Option<&Row>) -> How
    ensures { result ≡ how_of (option_copied issue.entry) }
{
    if is_lent_issue(issue) {
        How::Lent
    } else {
        How::Own
    }
}

fn same_how(a: How, b: How) -> bool
    ensures { result ≡ same_how a b }
{
    match a {
        How::Own => matches!(b, How::Own),
        How::Lent => matches!(b, How::Lent),
    }
}

fn how_before(last: How, others: &[u32]) -> How
    ensures { result ≡ how_before last others.now }
{
    match others {
        [] => last,
        [_, ..] => How::Lent,
    }
}

/// Whether each of the bindings gets the list once, lent but for the last one.
pub fn are_deliveries(last: How, bindings: &[u32], deliveries: &[(u32, How)]) -> bool
    ensures { result ≡ are_deliveries last bindings.now deliveries.now }
{
    match bindings {
        [] => deliveries.is_empty(),
        [b, others @ ..] => match deliveries {
            [] => false,
            [d, rest @ ..] => d.0 == *b
                && (same_how(d.1, how_before(last, others)) && are_deliveries(last, others, rest)),
        },
    }
}
