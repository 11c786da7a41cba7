//! Where a list or a status goes next.
ghost use Rattle.std.specs.Prelude.{◌≡◌, IfOk, take, drop, reverse};
ghost use Rattle.ndis_base.specs.declared.Direction.TheVariants as direction;
ghost use Rattle.stack_rules.specs.Targets.{has_send, has_receive, has_status, first_filter, filters_above, filters_between, next_down, next_up, next_done, next_back, next_status, onward, homeward_by, homeward, turned_back};

use crate::places::position;
use journal_types::{PassWay, Row, Target};
use ndis_base::{Direction, ListNo, ListStatus, ModuleId, OutOfMemory};
use plain_parts::rows::two_rows;
use plain_state::PlainModules;
use stack_rules::LiveList;
use std::alloc::Global;

fn front_of(numbers: &[u64], many: usize) -> &[u64]
    ensures { result.now ≡ take many numbers.now }
{
    if many < numbers.len() {
        &numbers[..many]
    } else {
        numbers
    }
}

fn rest_of(numbers: &[u64], at: usize) -> &[u64]
    ensures { result.now ≡ drop at numbers.now }
{
    if at < numbers.len() {
        &numbers[at..]
    } else {
        &numbers[numbers.len()..]
    }
}

/// The numbers in the opposite order.
pub fn reversed(alloc: Global, numbers: &[u64]) -> Result<Vec<u64>, OutOfMemory>
    ensures { IfOk result (λ turned. turned.items ≡ reverse numbers.now) }
{
    Ok(numbers.iter().rev().copied().collect(alloc)?)
}

fn first_sending(ms: &PlainModules, filters: &[u64], other: Target) -> Target
    ensures { result ≡ first_filter (has_send ms.now) filters.now other }
{
    match filters {
        [] => other,
        [f, others @ ..] => {
            if ms.has_send(*f) {
                Target::Module(ModuleId::Filter(*f))
            } else {
                first_sending(ms, others, other)
            }
        }
    }
}

fn first_receiving(ms: &PlainModules, filters: &[u64], other: Target) -> Target
    ensures { result ≡ first_filter (has_receive ms.now) filters.now other }
{
    match filters {
        [] => other,
        [f, others @ ..] => {
            if ms.has_receive(*f) {
                Target::Module(ModuleId::Filter(*f))
            } else {
                first_receiving(ms, others, other)
            }
        }
    }
}

fn first_noticing(ms: &PlainModules, filters: &[u64], other: Target) -> Target
    ensures { result ≡ first_filter (has_status ms.now) filters.now other }
{
    match filters {
        [] => other,
        [f, others @ ..] => {
            if ms.has_status(*f) {
                Target::Module(ModuleId::Filter(*f))
            } else {
                first_noticing(ms, others, other)
            }
        }
    }
}

fn filters_above(ms: &PlainModules, i: usize) -> &[u64]
    ensures { result.now ≡ filters_above ms.now i }
{
    front_of(ms.order(), i.saturating_sub(1))
}

fn filters_between(ms: &PlainModules, top: usize, bottom: usize) -> &[u64]
    ensures { result.now ≡ filters_between ms.now top bottom }
{
    rest_of(filters_above(ms, bottom), top)
}

/// A send goes down to the next filter with the send pair, else to the miniport.
pub fn next_down(ms: &PlainModules, i: usize) -> Target
    ensures { result ≡ next_down ms.now i }
{
    first_sending(
        ms,
        rest_of(ms.order(), i),
        Target::Module(ModuleId::Miniport),
    )
}

/// A receive goes up to the next filter with the receive pair, else to the bindings.
pub fn next_up(alloc: Global, ms: &PlainModules, i: usize) -> Result<Target, OutOfMemory>
    ensures { IfOk result (λ to. to ≡ next_up ms.now i) }
{
    let filters = reversed(alloc, filters_above(ms, i))?;
    Ok(first_receiving(ms, filters.as_slice(), Target::Bindings))
}

/// A done send goes up through the filters that had passed it, and to its owner.
pub fn next_done(
    alloc: Global,
    ms: &PlainModules,
    i: usize,
    owner: ModuleId,
) -> Result<Target, OutOfMemory>
    ensures { IfOk result (λ to. to ≡ next_done ms.now i owner) }
{
    let filters = reversed(alloc, filters_between(ms, position(ms.order(), owner), i))?;
    Ok(first_sending(ms, filters.as_slice(), Target::Module(owner)))
}

/// A returned receive goes down through the filters that had passed it, and to its owner.
pub fn next_back(ms: &PlainModules, i: usize, owner: ModuleId) -> Target
    ensures { result ≡ next_back ms.now i owner }
{
    let between = filters_between(ms, i, position(ms.order(), owner));
    first_receiving(ms, between, Target::Module(owner))
}

/// A status goes up to the next filter with the status handler, else to the bindings.
pub fn next_status(alloc: Global, ms: &PlainModules, i: usize) -> Result<Target, OutOfMemory>
    ensures { IfOk result (λ to. to ≡ next_status ms.now i) }
{
    let filters = reversed(alloc, filters_above(ms, i))?;
    Ok(first_noticing(ms, filters.as_slice(), Target::Bindings))
}

fn upward(alloc: Global, ms: &PlainModules, list: ListNo, i: usize) -> Result<Row, OutOfMemory>
    ensures { IfOk result (λ made. made ≡ onward ms.now list direction.Up i) }
{
    Ok(Row::Pass {
        list,
        way: PassWay::Up,
        to: next_up(alloc, ms, i)?,
    })
}

/// The row that passes a list onwards from a position: down for a send, up for a receive.
pub fn onward(
    alloc: Global,
    ms: &PlainModules,
    list: ListNo,
    d: Direction,
    i: usize,
) -> Result<Row, OutOfMemory>
    ensures { IfOk result (λ made. made ≡ onward ms.now list d i) }
{
    match d {
        Direction::Down => Ok(Row::Pass {
            list,
            way: PassWay::Down,
            to: next_down(ms, i),
        }),
        Direction::Up => upward(alloc, ms, list, i),
        Direction::Lent => upward(alloc, ms, list, i),
    }
}

fn backward(ms: &PlainModules, list: ListNo, owner: ModuleId, i: usize, status: ListStatus) -> Row
    ensures { result ≡ homeward_by ms.now list owner direction.Up i status }
{
    Row::Pass {
        list,
        way: PassWay::Back(status),
        to: next_back(ms, i, owner),
    }
}

fn homeward_by(
    alloc: Global,
    ms: &PlainModules,
    list: ListNo,
    owner: ModuleId,
    d: Direction,
    i: usize,
    status: ListStatus,
) -> Result<Row, OutOfMemory>
    ensures { IfOk result (λ made. made ≡ homeward_by ms.now list owner d i status) }
{
    match d {
        Direction::Down => Ok(Row::Pass {
            list,
            way: PassWay::Done(status),
            to: next_done(alloc, ms, i, owner)?,
        }),
        Direction::Up => Ok(backward(ms, list, owner, i, status)),
        Direction::Lent => Ok(backward(ms, list, owner, i, status)),
    }
}

/// The row that passes a list homewards from a position: done for a send, back for a receive.
pub fn homeward(
    alloc: Global,
    ms: &PlainModules,
    l: &LiveList,
    i: usize,
    status: ListStatus,
) -> Result<Row, OutOfMemory>
    ensures { IfOk result (λ made. made ≡ homeward ms.now l.now i status) }
{
    homeward_by(alloc, ms, l.list, l.owner, l.direction, i, status)
}

/// The rows where a module turns a list back: it goes homewards from there.
pub fn turned_back(
    alloc: Global,
    ms: &PlainModules,
    l: &LiveList,
    m: ModuleId,
    status: ListStatus,
) -> Result<Vec<Row>, OutOfMemory>
    ensures { IfOk result (λ rows. rows.items ≡ turned_back ms.now l.now m status) }
{
    let turned = Row::TurnBack {
        list: l.list,
        module: m,
        status,
    };
    let passed = homeward(alloc, ms, l, position(ms.order(), m), status)?;
    two_rows(alloc, turned, passed)
}
