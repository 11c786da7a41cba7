//! Cancelling sends.
ghost use Rattle.std.specs.Prelude.{◌≡◌, ◌∷◌, ◌++◌, [], IfOk, length, filter, map};
ghost use Rattle.std.specs.List.{flat_map};
ghost use Rattle.ndis_base.specs.declared.ModuleId.TheVariants.{Filter, Miniport};
ghost use Rattle.stack_rules.specs.Cancels.{is_hold_filter, is_named, cancelled_at, aborted, cancel_rows_at, queues, cancel_outcome};

use journal_types::{Reply, Row};
use ndis_base::{ListStatus, ModuleId, OutOfMemory};
use plain_net::PlainNet;
use plain_parts::rows::{no_rows, rows_and, sum_of};
use plain_parts::same::{is_down, same_number};
use plain_places::PlainOutcome;
use plain_places::lists::ready_lists;
use plain_places::targets::turned_back;
use plain_state::PlainModules;
use stack_rules::LiveList;
use std::alloc::Global;

fn is_named(id: u32, l: &LiveList) -> bool
    ensures { result ≡ is_named id l.now }
{
    is_down(l.direction) && same_number(l.cancel, Some(id))
}

/// The lists that a module turns back: sends that it keeps ready and that carry the identifier.
fn cancelled_at(
    alloc: Global,
    net: &PlainNet,
    id: u32,
    m: ModuleId,
) -> Result<Vec<LiveList>, OutOfMemory>
    ensures { IfOk result (λ named. named.items ≡ cancelled_at net.now id m) }
{
    let ready = ready_lists(alloc, net, m)?;
    let mut named = Vec::new(alloc);
    for l in ready {
        if is_named(id, &l) {
            named.push(l)?;
        }
    }
    Ok(named)
}

fn aborted(
    alloc: Global,
    net: &PlainNet,
    m: ModuleId,
    lists: &[LiveList],
) -> Result<Vec<Row>, OutOfMemory>
    ensures { IfOk result (λ rows. rows.items ≡ flat_map (aborted net.now m) lists.now) }
{
    match lists {
        [] => Ok(no_rows(alloc)),
        [l, others @ ..] => rows_and(
            turned_back(alloc, net.modules(), l, m, ListStatus::Aborted)?,
            aborted(alloc, net, m, others)?,
        ),
    }
}

fn cancel_rows_at(
    alloc: Global,
    net: &PlainNet,
    id: u32,
    m: ModuleId,
) -> Result<Vec<Row>, OutOfMemory>
    ensures { IfOk result (λ rows. rows.items ≡ cancel_rows_at net.now id m) }
{
    let named = cancelled_at(alloc, net, id, m)?;
    aborted(alloc, net, m, named.as_slice())
}

fn queues_in(alloc: Global, ms: &PlainModules, order: &[u64]) -> Result<Vec<ModuleId>, OutOfMemory>
    ensures { IfOk result (λ modules. modules.items ≡ map Filter (filter (is_hold_filter ms.now) order.now) ++ Miniport ∷ []) }
{
    match order {
        [] => {
            let mut modules = Vec::new(alloc);
            modules.push(ModuleId::Miniport)?;
            Ok(modules)
        }
        [f, others @ ..] => {
            let mut modules = queues_in(alloc, ms, others)?;
            if ms.is_hold_filter(*f) {
                modules.insert(0, ModuleId::Filter(*f))?;
            }
            Ok(modules)
        }
    }
}

/// The modules that queue sends, from the top down: the hold filters and the miniport.
fn queues(alloc: Global, ms: &PlainModules) -> Result<Vec<ModuleId>, OutOfMemory>
    ensures { IfOk result (λ modules. modules.items ≡ queues ms.now) }
{
    queues_in(alloc, ms, ms.order())
}

fn cancel_rows(
    alloc: Global,
    net: &PlainNet,
    id: u32,
    modules: &[ModuleId],
) -> Result<Vec<Row>, OutOfMemory>
    ensures { IfOk result (λ rows. rows.items ≡ flat_map (cancel_rows_at net.now id) modules.now) }
{
    match modules {
        [] => Ok(no_rows(alloc)),
        [m, others @ ..] => rows_and(
            cancel_rows_at(alloc, net, id, *m)?,
            cancel_rows(alloc, net, id, others)?,
        ),
    }
}

fn count_cancelled(
    alloc: Global,
    net: &PlainNet,
    id: u32,
    modules: &[ModuleId],
) -> Result<u64, OutOfMemory>
    ensures { IfOk result (λ n. n ≡ length (flat_map (cancelled_at net.now id) modules.now)) }
{
    match modules {
        [] => Ok(0),
        [m, others @ ..] => {
            let here = cancelled_at(alloc, net, id, *m)?.len();
            sum_of(here as u64, count_cancelled(alloc, net, id, others)?)
        }
    }
}

pub fn cancel_outcome(alloc: Global, net: &PlainNet, id: u32) -> Result<PlainOutcome, OutOfMemory>
    ensures { IfOk result (λ o. o ≡ cancel_outcome net.now id) }
{
    let modules = queues(alloc, net.modules())?;
    let n = count_cancelled(alloc, net, id, modules.as_slice())?;
    let rows = cancel_rows(alloc, net, id, modules.as_slice())?;
    Ok(PlainOutcome::of(Reply::Cancelled { n }, rows))
}
