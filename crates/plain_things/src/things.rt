//! What each row does to the lists, statuses and answers of a stack.
ghost use Rattle.std.specs.Prelude.{◌≡◌, not, IfOk, Some, option_copied, filter};
ghost use Rattle.stack_rules.specs.Net.{lists, list_of, is_list, without, with_list, after_change, at_end, as_kept, as_passed, after_keep, after_pass, is_answer_to, without_status, is_status, after_answer, things_after_done, taken_by, had_by};

use journal_types::{PassWay, Target};
use ndis_base::{CrossNo, ListNo, ModuleId, OidNo, OidStatus, OidValue, OutOfMemory};
use plain_parts::copies::copy_list;
use stack_rules::{Answered, LiveList, Request, Stand, Thing};
use std::alloc::Global;

/// The live list of this number.
pub fn list_of(n: u64, things: &[Thing]) -> Option<&LiveList>
    ensures { option_copied result ≡ list_of n (lists things.now) }
{
    for t in things {
        if let Thing::List(l) = t {
            if l.list.0 == n {
                return Some(l);
            }
        }
    }
    None
}

fn is_list(n: u64, t: &Thing) -> bool
    ensures { result ≡ is_list n t.now }
{
    match t {
        Thing::List(l) => l.list.0 == n,
        Thing::Status(_) => false,
        Thing::Answer(_) => false,
    }
}

/// The things without the list of this number.
pub fn without(alloc: Global, n: u64, things: Vec<Thing>) -> Result<Vec<Thing>, OutOfMemory>
    ensures { IfOk result (λ after. after.items ≡ without n things.items) }
{
    let mut after = Vec::new(alloc);
    for t in things {
        if !is_list(n, &t) {
            after.push(t)?;
        }
    }
    Ok(after)
}

fn thing_had_by(n: u64, m: ModuleId, t: Thing) -> Thing
    ensures { result ≡ with_list n (had_by m) t }
{
    match t {
        Thing::List(l) => {
            let mut l = l;
            if l.list.0 == n {
                l.last = m;
            }
            Thing::List(l)
        }
        Thing::Status(s) => Thing::Status(s),
        Thing::Answer(a) => Thing::Answer(a),
    }
}

/// The things after a module was given the list of this number, or turned it back.
pub fn things_had_by(
    alloc: Global,
    n: u64,
    m: ModuleId,
    things: Vec<Thing>,
) -> Result<Vec<Thing>, OutOfMemory>
    ensures { IfOk result (λ after. after.items ≡ after_change n (had_by m) things.items) }
{
    let mut after = Vec::new(alloc);
    for t in things {
        after.push(thing_had_by(n, m, t))?;
    }
    Ok(after)
}

fn thing_taken_by(n: u64, message: u64, t: Thing) -> Thing
    ensures { result ≡ with_list n (taken_by message) t }
{
    match t {
        Thing::List(l) => {
            let mut l = l;
            if l.list.0 == n {
                l.crossed = Some(CrossNo(message));
            }
            Thing::List(l)
        }
        Thing::Status(s) => Thing::Status(s),
        Thing::Answer(a) => Thing::Answer(a),
    }
}

/// The things after the list of this number was taken to another stack in a message.
pub fn things_taken_by(
    alloc: Global,
    n: u64,
    message: u64,
    things: Vec<Thing>,
) -> Result<Vec<Thing>, OutOfMemory>
    ensures { IfOk result (λ after. after.items ≡ after_change n (taken_by message) things.items) }
{
    let mut after = Vec::new(alloc);
    for t in things {
        after.push(thing_taken_by(n, message, t))?;
    }
    Ok(after)
}

fn kept_by(
    alloc: Global,
    m: ModuleId,
    l: Option<&LiveList>,
) -> Result<Option<LiveList>, OutOfMemory>
    ensures { IfOk result (λ moved. moved ≡ as_kept m (option_copied l.entry)) }
{
    match l {
        None => Ok(None),
        Some(l) => {
            let mut moved = copy_list(alloc, l)?;
            moved.last = m;
            moved.stand = Stand::Kept(m);
            Ok(Some(moved))
        }
    }
}

fn passed_to(
    alloc: Global,
    way: PassWay,
    to: Target,
    l: Option<&LiveList>,
) -> Result<Option<LiveList>, OutOfMemory>
    ensures { IfOk result (λ moved. moved ≡ as_passed way to (option_copied l.entry)) }
{
    match l {
        None => Ok(None),
        Some(l) => {
            let mut moved = copy_list(alloc, l)?;
            moved.stand = Stand::Passed { way, to };
            moved.crossed = None;
            Ok(Some(moved))
        }
    }
}

fn at_end(things: Vec<Thing>, l: Option<LiveList>) -> Result<Vec<Thing>, OutOfMemory>
    ensures { IfOk result (λ after. after.items ≡ at_end things.items l) }
{
    let mut after = things;
    match l {
        None => {}
        Some(l) => after.push(Thing::List(l))?,
    }
    Ok(after)
}

/// The things after a module kept the list of this number, which goes to the end.
pub fn kept(
    alloc: Global,
    n: u64,
    m: ModuleId,
    things: Vec<Thing>,
) -> Result<Vec<Thing>, OutOfMemory>
    ensures { IfOk result (λ after. after.items ≡ after_keep n m things.items) }
{
    let moved = kept_by(alloc, m, list_of(n, things.as_slice()))?;
    at_end(without(alloc, n, things)?, moved)
}

/// The things after the list of this number was passed on, which goes to the end.
pub fn passed(
    alloc: Global,
    n: u64,
    way: PassWay,
    to: Target,
    things: Vec<Thing>,
) -> Result<Vec<Thing>, OutOfMemory>
    ensures { IfOk result (λ after. after.items ≡ after_pass n way to things.items) }
{
    let moved = passed_to(alloc, way, to, list_of(n, things.as_slice()))?;
    at_end(without(alloc, n, things)?, moved)
}

fn is_status(n: u64, t: &Thing) -> bool
    ensures { result ≡ is_status n t.now }
{
    match t {
        Thing::Status(s) => s.number.0 == n,
        Thing::List(_) => false,
        Thing::Answer(_) => false,
    }
}

/// The things without the status of this number.
pub fn without_status(alloc: Global, n: u64, things: Vec<Thing>) -> Result<Vec<Thing>, OutOfMemory>
    ensures { IfOk result (λ after. after.items ≡ without_status n things.items) }
{
    let mut after = Vec::new(alloc);
    for t in things {
        if !is_status(n, &t) {
            after.push(t)?;
        }
    }
    Ok(after)
}

fn answers(parent: u64, t: &Thing) -> bool
    ensures { result ≡ is_answer_to parent t.now }
{
    match t {
        Thing::Answer(a) => a.parent.0 == parent,
        Thing::List(_) => false,
        Thing::Status(_) => false,
    }
}

fn without_answers(
    alloc: Global,
    parent: u64,
    things: Vec<Thing>,
) -> Result<Vec<Thing>, OutOfMemory>
    ensures { IfOk result (λ after. after.items ≡ filter (λ t. not (is_answer_to parent t)) things.items) }
{
    let mut after = Vec::new(alloc);
    for t in things {
        if !answers(parent, &t) {
            after.push(t)?;
        }
    }
    Ok(after)
}

fn answer_to(
    parent: Option<OidNo>,
    request: OidNo,
    status: OidStatus,
    value: &OidValue,
    things: Vec<Thing>,
) -> Result<Vec<Thing>, OutOfMemory>
    ensures { IfOk result (λ after. after.items ≡ after_answer parent request status value.now things.items) }
{
    let mut after = things;
    match parent {
        None => {}
        Some(parent) => after.push(Thing::Answer(Answered {
            request,
            parent,
            status,
            value: value.copy(),
        }))?,
    }
    Ok(after)
}

/// The things after a request was answered: what it had been answered by is gone, and it is its parent's
/// answer, where it has a parent.
pub fn things_done(
    alloc: Global,
    r: &Request,
    request: OidNo,
    status: OidStatus,
    value: &OidValue,
    things: Vec<Thing>,
) -> Result<Vec<Thing>, OutOfMemory>
    ensures { IfOk result (λ after. after.items ≡ things_after_done (Some r.now) request status value.now things.items) }
{
    let others = without_answers(alloc, request.0, things)?;
    answer_to(r.parent, request, status, value, others)
}
