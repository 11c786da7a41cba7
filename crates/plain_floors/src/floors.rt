//! The modules at each position, and the rows of their states.
ghost use Rattle.std.specs.Prelude.{◌≡◌, ◌≤◌, ◌∷◌, ◌++◌, [], IfOk, length, map, reverse, slice_index_or};
ghost use Rattle.ndis_base.specs.declared.ModuleId.TheVariants.{Filter, Miniport};
ghost use Rattle.stack_rules.specs.Pauses.{binding_ids, one, floors, state_row, state_rows, all_are, count_front};
ghost use Rattle.stack_rules.specs.Tests.{is_paused, is_running};

use journal_types::{PhaseOf, Row};
use ndis_base::{ModuleId, ModuleState, OutOfMemory};
use plain_net::PlainNet;
use plain_parts::rows::{no_rows, row_before, rows_and};
use plain_places::lists::{next_binding, state_of};
use plain_state::PlainModules;
use std::alloc::Global;
use std::marker::Model;

/// The modules at a position.
#[derive(Drop)]
pub struct Floor {
    modules: Vec<ModuleId>,
}

impl Model for Floor {
    ghost use Rattle.std.specs.Prelude.{List};
    ghost use Rattle.ndis_base.specs.declared.ModuleId.{ModuleId};

    ghost Value = { List ModuleId };

    ghost view = { λ f. f.modules.items };
}

impl Floor {
    pub fn modules(&self) -> &[ModuleId]
        ensures { result.now ≡ self.now }
    {
        self.modules.as_slice()
    }
}

/// All bindings from a number on.
pub fn binding_ids(
    alloc: Global,
    b: u32,
    states: &[ModuleState],
) -> Result<Vec<ModuleId>, OutOfMemory>
    ensures { IfOk result (λ modules. modules.items ≡ binding_ids b states.now) }
{
    match states {
        [] => Ok(Vec::new(alloc)),
        [_, others @ ..] => {
            let mut modules = binding_ids(alloc, next_binding(b)?, others)?;
            modules.insert(0, ModuleId::Binding(b))?;
            Ok(modules)
        }
    }
}

/// The filters of these numbers.
pub fn filter_modules(alloc: Global, filters: &[u64]) -> Result<Vec<ModuleId>, OutOfMemory>
    ensures { IfOk result (λ modules. modules.items ≡ map Filter filters.now) }
{
    match filters {
        [] => Ok(Vec::new(alloc)),
        [f, others @ ..] => {
            let mut modules = filter_modules(alloc, others)?;
            modules.insert(0, ModuleId::Filter(*f))?;
            Ok(modules)
        }
    }
}

fn floor_of_one(alloc: Global, m: ModuleId) -> Result<Floor, OutOfMemory>
    ensures { IfOk result (λ floor. floor ≡ one m) }
{
    let mut modules = Vec::new(alloc);
    modules.push(m)?;
    Ok(Floor { modules })
}

fn filter_floors(alloc: Global, order: &[u64]) -> Result<Vec<Floor>, OutOfMemory>
    ensures { IfOk result (λ all. all.items ≡ map (λ f. one (Filter f)) order.now ++ one Miniport ∷ []) }
{
    match order {
        [] => {
            let mut all = Vec::new(alloc);
            all.push(floor_of_one(alloc, ModuleId::Miniport)?)?;
            Ok(all)
        }
        [f, others @ ..] => {
            let mut all = filter_floors(alloc, others)?;
            all.insert(0, floor_of_one(alloc, ModuleId::Filter(*f))?)?;
            Ok(all)
        }
    }
}

/// The modules at each position, from the top: all bindings, each filter, the miniport.
pub fn floors(alloc: Global, ms: &PlainModules) -> Result<Vec<Floor>, OutOfMemory>
    ensures { IfOk result (λ all. all.items ≡ floors ms.now) }
{
    let modules = binding_ids(alloc, 0, ms.bindings())?;
    let mut all = filter_floors(alloc, ms.order())?;
    all.insert(0, Floor { modules })?;
    Ok(all)
}

/// The same from the bottom.
pub fn floors_from_below(alloc: Global, ms: &PlainModules) -> Result<Vec<Floor>, OutOfMemory>
    ensures { IfOk result (λ all. all.items ≡ reverse (floors ms.now)) }
{
    let mut all = floors(alloc, ms)?;
    all.reverse();
    Ok(all)
}

/// The modules at a position, none past the last.
pub fn modules_at(all: &[Floor], i: usize) -> &[ModuleId]
    ensures { result.now ≡ slice_index_or all.now i [] }
{
    if i < all.len() { all[i].modules() } else { &[] }
}

fn all_paused(net: &PlainNet, modules: &[ModuleId]) -> bool
    ensures { result ≡ all_are is_paused net.now modules.now }
{
    for m in modules {
        if !matches!(state_of(net, *m), ModuleState::Paused) {
            return false;
        }
    }
    true
}

fn all_running(net: &PlainNet, modules: &[ModuleId]) -> bool
    ensures { result ≡ all_are is_running net.now modules.now }
{
    for m in modules {
        if !matches!(state_of(net, *m), ModuleState::Running) {
            return false;
        }
    }
    true
}

/// How many positions in front are Paused.
pub fn paused_in_front(net: &PlainNet, all: &[Floor]) -> usize
    ensures value { result ≡ count_front (all_are is_paused net.now) all.now }
    ensures within { result ≤ length all.now }
{
    for (i, floor) in all.iter().enumerate() {
        if !all_paused(net, floor.modules()) {
            return i;
        }
    }
    all.len()
}

/// How many positions in front run.
pub fn running_in_front(net: &PlainNet, all: &[Floor]) -> usize
    ensures value { result ≡ count_front (all_are is_running net.now) all.now }
    ensures within { result ≤ length all.now }
{
    for (i, floor) in all.iter().enumerate() {
        if !all_running(net, floor.modules()) {
            return i;
        }
    }
    all.len()
}

/// A module takes a state.
pub fn state_row(s: ModuleState, m: ModuleId) -> Row
    ensures { result ≡ state_row s m }
{
    Row::Phase {
        of: PhaseOf::Module(m, s),
    }
}

fn states_of(alloc: Global, states: &[ModuleState], m: ModuleId) -> Result<Vec<Row>, OutOfMemory>
    ensures { IfOk result (λ rows. rows.items ≡ map (λ s. state_row s m) states.now) }
{
    match states {
        [] => Ok(no_rows(alloc)),
        [s, others @ ..] => row_before(state_row(*s, m), states_of(alloc, others, m)?),
    }
}

/// Each module takes some states, one after the other.
pub fn state_rows(
    alloc: Global,
    states: &[ModuleState],
    modules: &[ModuleId],
) -> Result<Vec<Row>, OutOfMemory>
    ensures { IfOk result (λ rows. rows.items ≡ state_rows states.now modules.now) }
{
    match modules {
        [] => Ok(no_rows(alloc)),
        [m, others @ ..] => rows_and(
            states_of(alloc, states, *m)?,
            state_rows(alloc, states, others)?,
        ),
    }
}
