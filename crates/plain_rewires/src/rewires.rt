//! Filters change while the stack is Paused.
ghost use Rattle.std.specs.Prelude.{◌≡◌, ◌==◌, ◌≤◌, ◌<◌, ◌+◌, not, if◌then◌else◌, IfOk, length, filter, map};
ghost use Rattle.journal_types.specs.declared.Refusal.TheVariants as refusal;
ghost use Rattle.stack_rules.specs.Outcome.{refused};
ghost use Rattle.stack_rules.specs.Rewires.{attach_rows, config_row, is_in, is_bad_position, when_attached, when_quiet, inserted, insert_outcome, removed, remove_outcome, swapped, replaced, replace_outcome};

use journal_types::{FilterList, Refusal, Reply, Row};
use ndis_base::{ConfigNo, ModuleId, ModuleState, OutOfMemory, Phase};
use plain_floors::floors::state_row;
use plain_floors::items::live_items;
use plain_net::PlainNet;
use plain_parts::copies::copy_numbers;
use plain_parts::rows::{next_number, one_row, row_before, rows_and, two_rows};
use plain_places::PlainOutcome;
use plain_places::outcome::{MAX_FILTERS, refused};
use stack_rules::Choice;
use std::alloc::Global;

fn config_row(net: &PlainNet, order: Vec<u64>) -> Result<Row, OutOfMemory>
    ensures { IfOk result (λ made. made ≡ config_row net.now order.items) }
{
    Ok(Row::Config {
        config: ConfigNo(next_number(net.modules().config())?),
        filters: FilterList::of(order),
    })
}

fn attach_rows(alloc: Global, f: u64) -> Result<Vec<Row>, OutOfMemory>
    ensures { IfOk result (λ rows. rows.items ≡ attach_rows f) }
{
    two_rows(
        alloc,
        state_row(ModuleState::Attaching, ModuleId::Filter(f)),
        state_row(ModuleState::Paused, ModuleId::Filter(f)),
    )
}

fn is_in(f: u64, order: &[u64]) -> bool
    ensures { result ≡ is_in f order.now }
{
    for g in order {
        if *g == f {
            return true;
        }
    }
    false
}

fn is_bad_position(net: &PlainNet, position: u8) -> bool
    ensures { result ≡ is_bad_position net.now position }
{
    position == 0 || net.modules().order().len() + 1 < position as usize
}

/// The driver that the shelf gives refuses, or there is none.
fn when_attached(alloc: Global, choice: Choice, outcome: PlainOutcome) -> PlainOutcome
    ensures { result ≡ when_attached choice outcome }
{
    if choice.shelf_empty {
        refused(alloc, Refusal::ShelfEmpty)
    } else if choice.refuses {
        refused(alloc, Refusal::AttachRefused)
    } else {
        outcome
    }
}

/// What every change is refused for first.
fn when_quiet(
    alloc: Global,
    net: &PlainNet,
    outcome: PlainOutcome,
) -> Result<PlainOutcome, OutOfMemory>
    ensures { IfOk result (λ o. o ≡ when_quiet net.now outcome) }
{
    if !matches!(net.phase(), Phase::Paused) {
        return Ok(refused(alloc, Refusal::NotPaused));
    }
    let n = live_items(net)?;
    if n == 0 {
        Ok(outcome)
    } else {
        Ok(refused(alloc, Refusal::Busy { n }))
    }
}

fn inserted(alloc: Global, net: &PlainNet, position: u8) -> Result<PlainOutcome, OutOfMemory>
    requires above { 0 < position }
    requires below { position ≤ length net.now.modules.order + 1 }
    ensures { IfOk result (λ o. o ≡ inserted net.now position) }
{
    let f = net.next().filter();
    let mut order = copy_numbers(alloc, net.modules().order())?;
    order.insert(position as usize - 1, f)?;
    let config = one_row(alloc, config_row(net, order)?)?;
    let rows = rows_and(attach_rows(alloc, f)?, config)?;
    Ok(PlainOutcome::of(Reply::Inserted { filter: f }, rows))
}

fn insert_at(
    alloc: Global,
    net: &PlainNet,
    position: u8,
    choice: Choice,
) -> Result<PlainOutcome, OutOfMemory>
    ensures { IfOk result (λ o. o ≡ (if length net.now.modules.order == 16 then refused refusal.Full else (if is_bad_position net.now position then refused refusal.BadPosition else when_attached choice (inserted net.now position)))) }
{
    if net.modules().order().len() == MAX_FILTERS {
        return Ok(refused(alloc, Refusal::Full));
    }
    if is_bad_position(net, position) {
        return Ok(refused(alloc, Refusal::BadPosition));
    }
    Ok(when_attached(alloc, choice, inserted(alloc, net, position)?))
}

pub fn insert_outcome(
    alloc: Global,
    net: &PlainNet,
    position: u8,
    choice: Choice,
) -> Result<PlainOutcome, OutOfMemory>
    ensures { IfOk result (λ o. o ≡ insert_outcome net.now position choice) }
{
    when_quiet(alloc, net, insert_at(alloc, net, position, choice)?)
}

fn order_without(alloc: Global, f: u64, order: &[u64]) -> Result<Vec<u64>, OutOfMemory>
    ensures { IfOk result (λ rest. rest.items ≡ filter (λ g. not (g == f)) order.now) }
{
    match order {
        [] => Ok(Vec::new(alloc)),
        [g, others @ ..] => {
            let mut rest = order_without(alloc, f, others)?;
            if *g != f {
                rest.insert(0, *g)?;
            }
            Ok(rest)
        }
    }
}

fn removed(alloc: Global, net: &PlainNet, f: u64) -> Result<PlainOutcome, OutOfMemory>
    ensures { IfOk result (λ o. o ≡ removed net.now f) }
{
    let order = order_without(alloc, f, net.modules().order())?;
    let detached = state_row(ModuleState::Detached, ModuleId::Filter(f));
    let rows = two_rows(alloc, detached, config_row(net, order)?)?;
    Ok(PlainOutcome::of(Reply::Removed, rows))
}

fn no_module(alloc: Global) -> PlainOutcome
    ensures { result ≡ refused refusal.NoModule }
{
    refused(alloc, Refusal::NoModule)
}

fn remove_in(alloc: Global, net: &PlainNet, f: u64) -> Result<PlainOutcome, OutOfMemory>
    ensures { IfOk result (λ o. o ≡ (if is_in f net.now.modules.order then removed net.now f else refused refusal.NoModule)) }
{
    if is_in(f, net.modules().order()) {
        removed(alloc, net, f)
    } else {
        Ok(no_module(alloc))
    }
}

pub fn remove_outcome(alloc: Global, net: &PlainNet, f: u64) -> Result<PlainOutcome, OutOfMemory>
    ensures { IfOk result (λ o. o ≡ remove_outcome net.now f) }
{
    when_quiet(alloc, net, remove_in(alloc, net, f)?)
}

fn swapped(old: u64, new: u64, g: u64) -> u64
    ensures { result ≡ swapped old new g }
{
    if g == old { new } else { g }
}

fn order_swapped(alloc: Global, old: u64, new: u64, order: &[u64]) -> Result<Vec<u64>, OutOfMemory>
    ensures { IfOk result (λ after. after.items ≡ map (swapped old new) order.now) }
{
    match order {
        [] => Ok(Vec::new(alloc)),
        [g, others @ ..] => {
            let mut after = order_swapped(alloc, old, new, others)?;
            after.insert(0, swapped(old, new, *g))?;
            Ok(after)
        }
    }
}

fn replaced(alloc: Global, net: &PlainNet, f: u64) -> Result<PlainOutcome, OutOfMemory>
    ensures { IfOk result (λ o. o ≡ replaced net.now f) }
{
    let new = net.next().filter();
    let order = order_swapped(alloc, f, new, net.modules().order())?;
    let config = one_row(alloc, config_row(net, order)?)?;
    let detached = state_row(ModuleState::Detached, ModuleId::Filter(f));
    let rows = row_before(detached, rows_and(attach_rows(alloc, new)?, config)?)?;
    Ok(PlainOutcome::of(Reply::Replaced { filter: new }, rows))
}

fn replace_in(
    alloc: Global,
    net: &PlainNet,
    f: u64,
    choice: Choice,
) -> Result<PlainOutcome, OutOfMemory>
    ensures { IfOk result (λ o. o ≡ (if is_in f net.now.modules.order then when_attached choice (replaced net.now f) else refused refusal.NoModule)) }
{
    if is_in(f, net.modules().order()) {
        Ok(when_attached(alloc, choice, replaced(alloc, net, f)?))
    } else {
        Ok(no_module(alloc))
    }
}

pub fn replace_outcome(
    alloc: Global,
    net: &PlainNet,
    f: u64,
    choice: Choice,
) -> Result<PlainOutcome, OutOfMemory>
    ensures { IfOk result (λ o. o ≡ replace_outcome net.now f choice) }
{
    when_quiet(alloc, net, replace_in(alloc, net, f, choice)?)
}
