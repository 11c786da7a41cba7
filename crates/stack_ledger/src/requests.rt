//! The requests that aren't done.
ghost use Rattle.std.specs.Prelude.{◌≡◌, ◌==◌, ◌≤◌, not, option_copied, filter, map};
ghost use Rattle.std.specs.Vec.{vec_len, vec_capacity};
ghost use Rattle.stack_rules.specs.Net.{below, request_of, place_below, place_of_clone, place_of_request, given_to};

use ndis_base::{ModuleId, OidNo};
use stack_modules::StackModules;
use stack_rules::{Request, RequestAt};

/// The request of this number.
pub fn request_of(n: u64, requests: &[Request]) -> Option<&Request>
    ensures { option_copied result ≡ request_of n requests.now }
{
    for r in requests {
        if r.request.0 == n {
            return Some(r);
        }
    }
    None
}

/// The filters that stand below this one in an order from top to bottom.
fn below(f: u64, order: &[u64]) -> &[u64]
    ensures { result.now ≡ below f order.now }
{
    match order {
        [] => order,
        [g, others @ ..] => { if *g == f { others } else { below(f, others) } }
    }
}

fn place_below(ms: &StackModules, at: RequestAt) -> RequestAt
    ensures { result ≡ place_below ms.now at }
{
    match at {
        RequestAt::Given(m) => match m {
            ModuleId::Filter(f) => RequestAt::Waiting(ms.first_oid(below(f, ms.order()))),
            _ => RequestAt::Entry,
        },
        _ => RequestAt::Entry,
    }
}

fn place_of_clone(ms: &StackModules, parent: Option<&Request>) -> RequestAt
    ensures { result ≡ place_of_clone ms.now (option_copied parent.entry) }
{
    match parent {
        None => RequestAt::Entry,
        Some(parent) => place_below(ms, parent.at),
    }
}

/// Where a request that is issued waits: a clone at the next OID module below its parent's.
pub fn place_of_request(ms: &StackModules, requests: &[Request], parent: Option<OidNo>) -> RequestAt
    ensures { result ≡ place_of_request ms.now requests.now parent }
{
    match parent {
        None => RequestAt::Entry,
        Some(parent) => place_of_clone(ms, request_of(parent.0, requests)),
    }
}

fn give_to(n: u64, m: ModuleId, r: &mut Request)
    ensures { r.new ≡ given_to n m r.old }
{
    if r.request.0 == n {
        r.at = RequestAt::Given(m);
    }
}

/// The request of this number is given to a module.
pub fn give(n: u64, m: ModuleId, requests: &mut Vec<Request>)
    ensures given { requests.new.items ≡ map (given_to n m) requests.old.items }
    ensures len { vec_len requests.new ≡ vec_len requests.old }
    ensures capacity { vec_capacity requests.new ≡ vec_capacity requests.old }
{
    for r in requests.iter_mut() {
        give_to(n, m, r);
    }
}

/// The request of this number is no more.
pub fn forget(n: u64, requests: &mut Vec<Request>)
    ensures after { requests.new.items ≡ filter (λ r. not (r.request.0 == n)) requests.old.items }
    ensures shorter { vec_len requests.new ≤ vec_len requests.old }
    ensures capacity { vec_capacity requests.new ≡ vec_capacity requests.old }
{
    requests.retain(|r| r.request.0 != n);
}
