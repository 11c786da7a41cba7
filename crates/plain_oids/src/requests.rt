//! OID requests: which one is given to which module, and what it does there.
ghost use Rattle.std.specs.Prelude.{◌≡◌, IfOk, option_copied, filter, reverse, find};
ghost use Rattle.journal_types.specs.declared.Row.TheVariants as row;
ghost use Rattle.stack_rules.specs.OidTable.{report_of};
ghost use Rattle.stack_rules.specs.Net.{has_oid};
ghost use Rattle.stack_rules.specs.Requests.{is_given_to, is_waiting_at, is_at_entry, is_busy, has_waiting, first_waiting, filter_ids, oid_modules, giving_to, lowest_giving, entry_giving, next_giving, given_rows_by, giving_rows, answer_rows, ask_outcome};

use crate::table::report_of;
use journal_types::{Refusal, Reply, Row};
use ndis_base::{ModuleId, ModuleState, OidKind, OidNo, OidStatus, OidValue, OutOfMemory, Phase};
use plain_net::PlainNet;
use plain_parts::copies::copy_request;
use plain_parts::rows::{no_rows, one_row, row_before};
use plain_parts::same::same_module;
use plain_places::PlainOutcome;
use plain_places::lists::state_of;
use plain_places::outcome::refused;
use plain_places::targets::reversed;
use plain_state::PlainModules;
use stack_rules::{Request, RequestAt};
use std::alloc::Global;
use std::marker::Model;

/// A request, and the module that it is given to.
#[derive(Drop)]
pub struct PlainGiving {
    request: Request,
    to: ModuleId,
}

impl Model for PlainGiving {
    ghost use Rattle.stack_rules.specs.Requests.{Giving};

    ghost Value = { Giving };

    ghost view = { λ g. record { request = g.request; module_id = g.to } };
}

fn is_given_to(m: ModuleId, at: RequestAt) -> bool
    ensures { result ≡ is_given_to m at }
{
    match at {
        RequestAt::Given(holder) => same_module(holder, m),
        _ => false,
    }
}

fn waits_at(m: ModuleId, at: RequestAt) -> bool
    ensures { result ≡ is_waiting_at m at }
{
    match at {
        RequestAt::Waiting(holder) => same_module(holder, m),
        _ => false,
    }
}

pub fn is_at_entry(at: RequestAt) -> bool
    ensures { result ≡ is_at_entry at }
{
    matches!(at, RequestAt::Entry)
}

/// Whether the module has a given request.
fn is_busy(requests: &[Request], m: ModuleId) -> bool
    ensures { result ≡ is_busy requests.now m }
{
    for r in requests {
        if is_given_to(m, r.at) {
            return true;
        }
    }
    false
}

fn has_waiting(requests: &[Request], m: ModuleId) -> bool
    ensures { result ≡ has_waiting requests.now m }
{
    for r in requests {
        if waits_at(m, r.at) {
            return true;
        }
    }
    false
}

/// The first request that waits at a module.
fn first_waiting(requests: &[Request], m: ModuleId) -> Option<&Request>
    ensures { option_copied result ≡ first_waiting requests.now m }
{
    for r in requests {
        if waits_at(m, r.at) {
            return Some(r);
        }
    }
    None
}

fn first_at_entry(requests: &[Request]) -> Option<&Request>
    ensures { option_copied result ≡ find (λ r. is_at_entry r.at) requests.now }
{
    for r in requests {
        if is_at_entry(r.at) {
            return Some(r);
        }
    }
    None
}

fn filter_ids(alloc: Global, filters: &[u64]) -> Result<Vec<ModuleId>, OutOfMemory>
    ensures { IfOk result (λ modules. modules.items ≡ filter_ids filters.now) }
{
    match filters {
        [] => Ok(Vec::new(alloc)),
        [f, others @ ..] => {
            let mut modules = filter_ids(alloc, others)?;
            modules.insert(0, ModuleId::Filter(*f))?;
            Ok(modules)
        }
    }
}

fn taking_requests(alloc: Global, ms: &PlainModules) -> Result<Vec<u64>, OutOfMemory>
    ensures { IfOk result (λ filters. filters.items ≡ filter (has_oid ms.now) (reverse ms.now.order)) }
{
    let turned = reversed(alloc, ms.order())?;
    let mut filters = Vec::new(alloc);
    for f in turned {
        if ms.has_oid(f) {
            filters.push(f)?;
        }
    }
    Ok(filters)
}

/// The modules that take requests, the lowest first.
fn oid_modules(alloc: Global, ms: &PlainModules) -> Result<Vec<ModuleId>, OutOfMemory>
    ensures { IfOk result (λ modules. modules.items ≡ oid_modules ms.now) }
{
    let filters = taking_requests(alloc, ms)?;
    let mut modules = filter_ids(alloc, filters.as_slice())?;
    modules.insert(0, ModuleId::Miniport)?;
    Ok(modules)
}

fn giving_to(m: ModuleId, r: Option<&Request>) -> Option<PlainGiving>
    ensures { result ≡ giving_to m (option_copied r.entry) }
{
    match r {
        None => None,
        Some(r) => Some(PlainGiving {
            request: copy_request(r),
            to: m,
        }),
    }
}

fn lowest_giving(requests: &[Request], modules: &[ModuleId]) -> Option<PlainGiving>
    ensures { result ≡ lowest_giving requests.now modules.now }
{
    match modules {
        [] => None,
        [m, others @ ..] => {
            if has_waiting(requests, *m) && !is_busy(requests, *m) {
                giving_to(*m, first_waiting(requests, *m))
            } else {
                lowest_giving(requests, others)
            }
        }
    }
}

/// The entry's first, at the topmost module that takes requests.
fn entry_giving(net: &PlainNet) -> Option<PlainGiving>
    ensures { result ≡ entry_giving net.now }
{
    let top = net.modules().first_oid(net.modules().order());
    let requests = net.requests();
    if (matches!(net.phase(), Phase::Paused) || matches!(net.phase(), Phase::Halted))
        || (is_busy(requests, top) || has_waiting(requests, top))
    {
        None
    } else {
        giving_to(top, first_at_entry(requests))
    }
}

/// The request that a pump works where nothing is on its way.
pub fn next_giving(alloc: Global, net: &PlainNet) -> Result<Option<PlainGiving>, OutOfMemory>
    ensures { IfOk result (λ g. g ≡ next_giving net.now) }
{
    let modules = oid_modules(alloc, net.modules())?;
    match lowest_giving(net.requests(), modules.as_slice()) {
        None => Ok(entry_giving(net)),
        Some(g) => Ok(Some(g)),
    }
}

fn report_row(net: &PlainNet, r: &Request) -> Row
    ensures { result ≡ row.OidDone r.now.request (report_of net.now r.now).status (report_of net.now r.now).value }
{
    let report = report_of(net, r);
    Row::OidDone {
        request: r.request,
        status: report.status(),
        value: report.value().copy(),
    }
}

/// A filter forwards the request by a clone, the miniport answers it.
fn given_rows_by(
    alloc: Global,
    net: &PlainNet,
    r: &Request,
    m: ModuleId,
) -> Result<Vec<Row>, OutOfMemory>
    ensures { IfOk result (λ rows. rows.items ≡ given_rows_by net.now r.now m) }
{
    match m {
        ModuleId::Miniport => one_row(alloc, report_row(net, r)),
        ModuleId::Filter(_) => one_row(
            alloc,
            Row::OidIssue {
                request: OidNo(net.next().request()),
                parent: Some(r.request),
                binding: r.binding,
                kind: r.kind,
                code: r.code,
                value: r.value.copy(),
            },
        ),
        ModuleId::Binding(_) => Ok(no_rows(alloc)),
    }
}

/// The rows of a request that is given to a module.
pub fn giving_rows(alloc: Global, net: &PlainNet, g: &PlainGiving) -> Result<Vec<Row>, OutOfMemory>
    ensures { IfOk result (λ rows. rows.items ≡ giving_rows net.now g.now) }
{
    let give = Row::OidGive {
        request: g.request.request,
        module: g.to,
    };
    row_before(give, given_rows_by(alloc, net, &g.request, g.to)?)
}

/// An answered clone at its filter: the original is done with the clone's answer.
pub fn answer_rows(
    alloc: Global,
    parent: OidNo,
    status: OidStatus,
    value: &OidValue,
) -> Result<Vec<Row>, OutOfMemory>
    ensures { IfOk result (λ rows. rows.items ≡ answer_rows parent status value.now) }
{
    one_row(
        alloc,
        Row::OidDone {
            request: parent,
            status,
            value: value.copy(),
        },
    )
}

/// A binding makes a request, which waits at the entry: refused where it is Unbound.
pub fn ask_outcome(
    alloc: Global,
    net: &PlainNet,
    binding: u32,
    kind: OidKind,
    code: u32,
    value: &OidValue,
) -> Result<PlainOutcome, OutOfMemory>
    ensures { IfOk result (λ o. o ≡ ask_outcome net.now binding kind code value.now) }
{
    if matches!(
        state_of(net, ModuleId::Binding(binding)),
        ModuleState::Unbound
    ) {
        return Ok(refused(alloc, Refusal::Unbound));
    }
    let request = OidNo(net.next().request());
    let issue = Row::OidIssue {
        request,
        parent: None,
        binding,
        kind,
        code,
        value: value.copy(),
    };
    Ok(PlainOutcome::of(Reply::Asked { request }, one_row(alloc, issue)?))
}
