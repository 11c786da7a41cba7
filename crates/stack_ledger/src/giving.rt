//! Which request is given to which module next.
ghost use Rattle.std.specs.Prelude.{◌≡◌, ◌&&◌, not, option_copied, filter, find, reverse};
ghost use Rattle.stack_rules.specs.Tests.{same_module};
ghost use Rattle.stack_rules.specs.Net.{has_oid};
ghost use Rattle.stack_rules.specs.Requests.{is_given_to, is_waiting_at, is_at_entry, is_busy, has_waiting, first_waiting, filter_ids, oid_modules, giving_to, lowest_giving, entry_giving, next_giving};

use crate::ledger::StackLedger;
use ndis_base::{ModuleId, Phase};
use stack_modules::StackModules;
use stack_rules::{Request, RequestAt};
use std::marker::Model;

/// A request, and the module that it is given to.
#[derive(Drop)]
pub struct Giving {
    request: Request,
    to: ModuleId,
}

impl Model for Giving {
    ghost use Rattle.stack_rules.specs.Requests as rules;

    ghost Value = { rules.Giving };

    ghost view = { λ g. record { request = g.request; module_id = g.to } };
}

impl Giving {
    /// The request.
    pub fn request(&self) -> &Request
        ensures { result.now ≡ self.now.request }
    {
        &self.request
    }

    /// The module that it is given to.
    pub fn to(&self) -> ModuleId
        ensures { result ≡ self.now.module_id }
    {
        self.to
    }
}

/// An equal request. It takes no memory.
pub fn copy_request(r: &Request) -> Request
    ensures { result ≡ r.now }
{
    Request {
        request: r.request,
        parent: r.parent,
        binding: r.binding,
        kind: r.kind,
        code: r.code,
        value: r.value.copy(),
        at: r.at,
    }
}

fn same_module(a: ModuleId, b: ModuleId) -> bool
    ensures { result ≡ same_module a b }
{
    match (a, b) {
        (ModuleId::Miniport, ModuleId::Miniport) => true,
        (ModuleId::Filter(f), ModuleId::Filter(g)) => f == g,
        (ModuleId::Binding(c), ModuleId::Binding(d)) => c == d,
        _ => false,
    }
}

fn is_given_to(m: ModuleId, at: RequestAt) -> bool
    ensures { result ≡ is_given_to m at }
{
    match at {
        RequestAt::Given(holder) => same_module(holder, m),
        _ => false,
    }
}

fn waits_at(m: ModuleId, at: RequestAt) -> bool
    ensures { result ≡ is_waiting_at m at }
{
    match at {
        RequestAt::Waiting(holder) => same_module(holder, m),
        _ => false,
    }
}

/// Whether the module has a given request.
fn is_busy(requests: &[Request], m: ModuleId) -> bool
    ensures { result ≡ is_busy requests.now m }
{
    for r in requests {
        if is_given_to(m, r.at) {
            return true;
        }
    }
    false
}

fn has_waiting(requests: &[Request], m: ModuleId) -> bool
    ensures { result ≡ has_waiting requests.now m }
{
    for r in requests {
        if waits_at(m, r.at) {
            return true;
        }
    }
    false
}

/// The first request that waits at a module.
fn first_waiting(requests: &[Request], m: ModuleId) -> Option<&Request>
    ensures { option_copied result ≡ first_waiting requests.now m }
{
    for r in requests {
        if waits_at(m, r.at) {
            return Some(r);
        }
    }
    None
}

fn first_at_entry(requests: &[Request]) -> Option<&Request>
    ensures { option_copied result ≡ find (λ r. is_at_entry r.at) requests.now }
{
    for r in requests {
        if matches!(r.at, RequestAt::Entry) {
            return Some(r);
        }
    }
    None
}

fn giving_to(m: ModuleId, r: Option<&Request>) -> Option<Giving>
    ensures { result ≡ giving_to m (option_copied r.entry) }
{
    match r {
        None => None,
        Some(r) => Some(Giving {
            request: copy_request(r),
            to: m,
        }),
    }
}

fn may_give(requests: &[Request], m: ModuleId) -> bool
    ensures { result ≡ has_waiting requests.now m && not (is_busy requests.now m) }
{
    has_waiting(requests, m) && !is_busy(requests, m)
}

fn lowest_filter(ms: &StackModules, requests: &[Request], filters: &[u64]) -> Option<Giving>
    ensures { result ≡ lowest_giving requests.now (filter_ids (filter (has_oid ms.now) (reverse filters.now))) }
{
    match filters {
        [] => None,
        [others @ .., f] => {
            if ms.has_oid(*f) && may_give(requests, ModuleId::Filter(*f)) {
                giving_to(
                    ModuleId::Filter(*f),
                    first_waiting(requests, ModuleId::Filter(*f)),
                )
            } else {
                lowest_filter(ms, requests, others)
            }
        }
    }
}

fn lowest_giving(ms: &StackModules, requests: &[Request]) -> Option<Giving>
    ensures { result ≡ lowest_giving requests.now (oid_modules ms.now) }
{
    if may_give(requests, ModuleId::Miniport) {
        giving_to(
            ModuleId::Miniport,
            first_waiting(requests, ModuleId::Miniport),
        )
    } else {
        lowest_filter(ms, requests, ms.order())
    }
}

impl StackLedger {
    /// The entry's first, at the topmost module that takes requests.
    pub fn entry_giving(&self) -> Option<Giving>
        ensures { result ≡ entry_giving self.now.net }
    {
        let top = self.modules.first_oid(self.modules.order());
        let requests = self.requests.as_slice();
        if (matches!(self.phase, Phase::Paused) || matches!(self.phase, Phase::Halted))
            || (is_busy(requests, top) || has_waiting(requests, top))
        {
            None
        } else {
            giving_to(top, first_at_entry(requests))
        }
    }

    /// The request that a pump works where nothing is on its way.
    pub fn next_giving(&self) -> Option<Giving>
        ensures { result ≡ next_giving self.now.net }
    {
        match lowest_giving(&self.modules, self.requests.as_slice()) {
            None => self.entry_giving(),
            Some(g) => Some(g),
        }
    }
}
