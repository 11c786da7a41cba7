//! A pause goes from the top down, a restart from the bottom up.
ghost use Rattle.std.specs.Prelude.{◌≡◌, ◌≤◌, ◌∷◌, [], if◌then◌else◌, IfOk, length, reverse};
ghost use Rattle.ndis_base.specs.declared.Phase.TheVariants as phase;
ghost use Rattle.journal_types.specs.declared.Row.TheVariants as row;
ghost use Rattle.journal_types.specs.declared.PhaseOf.TheVariants as of;
ghost use Rattle.journal_types.specs.declared.Refusal.TheVariants as refusal;
ghost use Rattle.stack_rules.specs.Outcome.{refused};
ghost use Rattle.stack_rules.specs.Pauses.{initialize_rows, initialize_outcome, begin_outcome, paused_rows, paused_reply, pause_at, pause_outcome, restarting, restart_rows, restart_at, restart_outcome, halt_rows, halt_outcome, floors};

use journal_types::{FilterList, PhaseOf, Refusal, Reply, Row};
use ndis_base::{ConfigNo, ModuleId, ModuleState, OutOfMemory, Phase};
use plain_floors::floors::{
    Floor, binding_ids, filter_modules, floors, floors_from_below, modules_at, paused_in_front,
    running_in_front, state_row, state_rows,
};
use plain_floors::items::halt_items;
use plain_net::PlainNet;
use plain_parts::rows::{no_rows, one_row, row_before, rows_and, two_rows};
use plain_places::PlainOutcome;
use plain_places::lists::outstanding;
use plain_places::outcome::{answered, refused};
use std::alloc::Global;

fn phase_row(p: Phase) -> Row
    ensures { result ≡ row.Phase (of.Stack p) }
{
    Row::Phase {
        of: PhaseOf::Stack(p),
    }
}

fn wrong_phase(alloc: Global, net: &PlainNet) -> PlainOutcome
    ensures { result ≡ refused (refusal.WrongPhase net.now.phase) }
{
    refused(alloc, Refusal::WrongPhase { phase: net.phase() })
}

fn initialize_rows(alloc: Global, net: &PlainNet) -> Result<Vec<Row>, OutOfMemory>
    ensures { IfOk result (λ rows. rows.items ≡ initialize_rows net.now) }
{
    let bindings = binding_ids(alloc, 0, net.modules().bindings())?;
    let config = Row::Config {
        config: ConfigNo(1),
        filters: FilterList::of(Vec::new(alloc)),
    };
    let opened = state_rows(
        alloc,
        &[ModuleState::Opening, ModuleState::Paused],
        bindings.as_slice(),
    )?;
    let after = rows_and(opened, two_rows(alloc, phase_row(Phase::Paused), config)?)?;
    row_before(state_row(ModuleState::Paused, ModuleId::Miniport), after)
}

pub fn initialize_outcome(
    alloc: Global,
    net: &PlainNet,
    refuses: bool,
) -> Result<PlainOutcome, OutOfMemory>
    ensures { IfOk result (λ o. o ≡ initialize_outcome net.now refuses) }
{
    if !matches!(net.phase(), Phase::Halted) {
        return Ok(wrong_phase(alloc, net));
    }
    if refuses {
        return Ok(refused(alloc, Refusal::InitRefused));
    }
    Ok(PlainOutcome::of(Reply::Ok, initialize_rows(alloc, net)?))
}

pub fn begin_outcome(alloc: Global, net: &PlainNet) -> Result<PlainOutcome, OutOfMemory>
    ensures { IfOk result (λ o. o ≡ begin_outcome net.now) }
{
    if !matches!(net.phase(), Phase::Running) {
        return Ok(wrong_phase(alloc, net));
    }
    let bindings = binding_ids(alloc, 0, net.modules().bindings())?;
    let rows = state_rows(alloc, &[ModuleState::Pausing], bindings.as_slice())?;
    Ok(PlainOutcome::of(Reply::Ok, row_before(phase_row(Phase::Pausing), rows)?))
}

/// The position becomes Paused and the next one Pausing; after the miniport the stack is Paused.
fn paused_rows(
    alloc: Global,
    net: &PlainNet,
    all: &[Floor],
    i: usize,
) -> Result<Vec<Row>, OutOfMemory>
    requires floors { all.now ≡ floors net.now.modules }
    requires within { i ≤ length all.now }
    ensures { IfOk result (λ rows. rows.items ≡ paused_rows net.now i) }
{
    let paused = state_rows(alloc, &[ModuleState::Paused], modules_at(all, i))?;
    if i + 1 < all.len() {
        rows_and(
            paused,
            state_rows(alloc, &[ModuleState::Pausing], modules_at(all, i + 1))?,
        )
    } else {
        rows_and(paused, one_row(alloc, phase_row(Phase::Paused))?)
    }
}

fn paused_reply(net: &PlainNet, all: &[Floor], i: usize) -> Reply
    requires floors { all.now ≡ floors net.now.modules }
    requires within { i ≤ length all.now }
    ensures { result ≡ paused_reply net.now i }
{
    if i + 1 < all.len() {
        Reply::Next
    } else {
        Reply::Paused
    }
}

fn pause_at(
    alloc: Global,
    net: &PlainNet,
    all: &[Floor],
    i: usize,
) -> Result<PlainOutcome, OutOfMemory>
    requires floors { all.now ≡ floors net.now.modules }
    requires within { i ≤ length all.now }
    ensures { IfOk result (λ o. o ≡ pause_at net.now i) }
{
    let n = outstanding(net, i);
    if n == 0 {
        let rows = paused_rows(alloc, net, all, i)?;
        Ok(PlainOutcome::of(paused_reply(net, all, i), rows))
    } else {
        Ok(answered(alloc, Reply::Waiting { n: n as u64 }))
    }
}

pub fn pause_outcome(alloc: Global, net: &PlainNet) -> Result<PlainOutcome, OutOfMemory>
    ensures { IfOk result (λ o. o ≡ pause_outcome net.now) }
{
    if !matches!(net.phase(), Phase::Pausing) {
        return Ok(wrong_phase(alloc, net));
    }
    let all = floors(alloc, net.modules())?;
    let i = paused_in_front(net, all.as_slice());
    pause_at(alloc, net, all.as_slice(), i)
}

fn restarting(alloc: Global, net: &PlainNet) -> Result<Vec<Row>, OutOfMemory>
    ensures { IfOk result (λ rows. rows.items ≡ restarting net.now) }
{
    if matches!(net.phase(), Phase::Paused) {
        one_row(alloc, phase_row(Phase::Restarting))
    } else {
        Ok(no_rows(alloc))
    }
}

fn running_at_top(alloc: Global, top: bool) -> Result<Vec<Row>, OutOfMemory>
    ensures { IfOk result (λ rows. rows.items ≡ (if top then row.Phase (of.Stack phase.Running) ∷ [] else [])) }
{
    if top {
        one_row(alloc, phase_row(Phase::Running))
    } else {
        Ok(no_rows(alloc))
    }
}

/// The lowest position that doesn't run, i from the bottom, restarts and runs.
fn restart_rows(
    alloc: Global,
    net: &PlainNet,
    all: &[Floor],
    i: usize,
) -> Result<Vec<Row>, OutOfMemory>
    requires floors { all.now ≡ reverse (floors net.now.modules) }
    requires within { i ≤ length all.now }
    ensures { IfOk result (λ rows. rows.items ≡ restart_rows net.now i) }
{
    let states = [ModuleState::Restarting, ModuleState::Running];
    let run = state_rows(alloc, &states, modules_at(all, i))?;
    let last = running_at_top(alloc, i + 1 == all.len())?;
    rows_and(restarting(alloc, net)?, rows_and(run, last)?)
}

fn restart_at(
    alloc: Global,
    net: &PlainNet,
    all: &[Floor],
    i: usize,
) -> Result<PlainOutcome, OutOfMemory>
    requires floors { all.now ≡ reverse (floors net.now.modules) }
    requires within { i ≤ length all.now }
    ensures { IfOk result (λ o. o ≡ restart_at net.now i) }
{
    let rows = restart_rows(alloc, net, all, i)?;
    let reply = if i + 1 == all.len() {
        Reply::Running
    } else {
        Reply::Next
    };
    Ok(PlainOutcome::of(reply, rows))
}

pub fn restart_outcome(alloc: Global, net: &PlainNet) -> Result<PlainOutcome, OutOfMemory>
    ensures { IfOk result (λ o. o ≡ restart_outcome net.now) }
{
    if matches!(net.phase(), Phase::Paused) || matches!(net.phase(), Phase::Restarting) {
        let all = floors_from_below(alloc, net.modules())?;
        let i = running_in_front(net, all.as_slice());
        restart_at(alloc, net, all.as_slice(), i)
    } else {
        Ok(wrong_phase(alloc, net))
    }
}

fn halt_rows(alloc: Global, net: &PlainNet) -> Result<Vec<Row>, OutOfMemory>
    ensures { IfOk result (λ rows. rows.items ≡ halt_rows net.now) }
{
    let ms = net.modules();
    let bindings = binding_ids(alloc, 0, ms.bindings())?;
    let filters = filter_modules(alloc, ms.order())?;
    let last = two_rows(
        alloc,
        state_row(ModuleState::Halted, ModuleId::Miniport),
        phase_row(Phase::Halted),
    )?;
    let detached = state_rows(alloc, &[ModuleState::Detached], filters.as_slice())?;
    let closed = state_rows(
        alloc,
        &[ModuleState::Closing, ModuleState::Unbound],
        bindings.as_slice(),
    )?;
    rows_and(closed, rows_and(detached, last)?)
}

pub fn halt_outcome(alloc: Global, net: &PlainNet) -> Result<PlainOutcome, OutOfMemory>
    ensures { IfOk result (λ o. o ≡ halt_outcome net.now) }
{
    if !matches!(net.phase(), Phase::Paused) {
        return Ok(wrong_phase(alloc, net));
    }
    let n = halt_items(net)?;
    if n == 0 {
        Ok(PlainOutcome::of(Reply::Halted, halt_rows(alloc, net)?))
    } else {
        Ok(refused(alloc, Refusal::Busy { n }))
    }
}
