//! The requests that aren't answered.
ghost use Rattle.std.specs.Prelude.{◌≡◌, ◌==◌, not, IfOk, option_copied, filter, map};
ghost use Rattle.stack_rules.specs.Net.{request_of, place_below, place_of_clone, place_of_request, given_to};

use crate::filters::below;
use crate::modules::PlainModules;
use ndis_base::{ModuleId, OidNo, OutOfMemory};
use stack_rules::{Request, RequestAt};
use std::alloc::Global;

/// The request of this number.
pub fn request_of(n: u64, requests: &[Request]) -> Option<&Request>
    ensures { option_copied result ≡ request_of n requests.now }
{
    for r in requests {
        if r.request.0 == n {
            return Some(r);
        }
    }
    None
}

fn place_below(ms: &PlainModules, at: RequestAt) -> RequestAt
    ensures { result ≡ place_below ms.now at }
{
    match at {
        RequestAt::Given(m) => match m {
            ModuleId::Filter(f) => RequestAt::Waiting(ms.first_oid(below(f, ms.order()))),
            _ => RequestAt::Entry,
        },
        _ => RequestAt::Entry,
    }
}

fn place_of_clone(ms: &PlainModules, parent: Option<&Request>) -> RequestAt
    ensures { result ≡ place_of_clone ms.now (option_copied parent.entry) }
{
    match parent {
        None => RequestAt::Entry,
        Some(parent) => place_below(ms, parent.at),
    }
}

/// Where a request that is issued waits: a clone at the next OID module below its parent's.
pub fn place_of_request(ms: &PlainModules, requests: &[Request], parent: Option<OidNo>) -> RequestAt
    ensures { result ≡ place_of_request ms.now requests.now parent }
{
    match parent {
        None => RequestAt::Entry,
        Some(parent) => place_of_clone(ms, request_of(parent.0, requests)),
    }
}

fn given_to(n: u64, m: ModuleId, r: Request) -> Request
    ensures { result ≡ given_to n m r }
{
    let mut r = r;
    if r.request.0 == n {
        r.at = RequestAt::Given(m);
    }
    r
}

/// The requests after the one of this number was given to a module.
pub fn requests_given(
    alloc: Global,
    n: u64,
    m: ModuleId,
    requests: Vec<Request>,
) -> Result<Vec<Request>, OutOfMemory>
    ensures { IfOk result (λ after. after.items ≡ map (given_to n m) requests.items) }
{
    let mut after = Vec::new(alloc);
    for r in requests {
        after.push(given_to(n, m, r))?;
    }
    Ok(after)
}

/// The requests without the one of this number.
pub fn without_request(
    alloc: Global,
    n: u64,
    requests: Vec<Request>,
) -> Result<Vec<Request>, OutOfMemory>
    ensures { IfOk result (λ after. after.items ≡ filter (λ r. not (r.request.0 == n)) requests.items) }
{
    let mut after = Vec::new(alloc);
    for r in requests {
        if r.request.0 != n {
            after.push(r)?;
        }
    }
    Ok(after)
}
