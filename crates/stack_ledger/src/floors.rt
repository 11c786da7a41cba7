//! How many positions are in a state, from the top or from the bottom.
ghost use Rattle.std.specs.Prelude.{◌≡◌, ◌≤◌, ◌+◌, length, reverse};
ghost use Rattle.std.specs.List.{list_all};
ghost use Rattle.stack_ledger.specs.Positions.{is_in, count_filters, paused_from_top, running_from_below};

use ndis_base::ModuleState;
use stack_modules::StackModules;

/// The state that is asked for.
#[derive(Clone, Copy, PartialEq, Eq)]
pub enum Wanted {
    Paused,
    Running,
}

/// Whether a state is the one that is asked for.
fn is_in(wanted: Wanted, s: ModuleState) -> bool
    ensures { result ≡ is_in wanted s }
{
    match wanted {
        Wanted::Paused => matches!(s, ModuleState::Paused),
        Wanted::Running => matches!(s, ModuleState::Running),
    }
}

/// Whether all of these states are.
fn all_in(wanted: Wanted, states: &[ModuleState]) -> bool
    ensures { result ≡ list_all (is_in wanted) states.now }
{
    for s in states {
        if !is_in(wanted, *s) {
            return false;
        }
    }
    true
}

/// How many of these filters at the front are in the state, and the last position where all are.
fn count_down(ms: &StackModules, wanted: Wanted, last: bool, filters: &[u64]) -> usize
    ensures value { result ≡ count_filters (is_in wanted) ms.now last filters.now }
    ensures within { result ≤ length filters.now + 1 }
{
    match filters {
        [] => { if last { 1 } else { 0 } }
        [f, others @ ..] => {
            if is_in(wanted, ms.state_of(*f)) {
                count_down(ms, wanted, last, others) + 1
            } else {
                0
            }
        }
    }
}

/// The same from the end.
fn count_up(ms: &StackModules, wanted: Wanted, last: bool, filters: &[u64]) -> usize
    ensures value { result ≡ count_filters (is_in wanted) ms.now last (reverse filters.now) }
    ensures within { result ≤ length filters.now + 1 }
{
    match filters {
        [] => { if last { 1 } else { 0 } }
        [others @ .., f] => {
            if is_in(wanted, ms.state_of(*f)) {
                count_up(ms, wanted, last, others) + 1
            } else {
                0
            }
        }
    }
}

/// How many positions from the top are Paused.
pub fn paused_from_top(ms: &StackModules) -> usize
    ensures { result ≡ paused_from_top ms.now }
{
    let miniport = is_in(Wanted::Paused, ms.miniport());
    if all_in(Wanted::Paused, ms.bindings()) {
        count_down(ms, Wanted::Paused, miniport, ms.order()) + 1
    } else {
        0
    }
}

/// How many positions from the bottom run.
pub fn running_from_below(ms: &StackModules) -> usize
    ensures { result ≡ running_from_below ms.now }
{
    let bindings = all_in(Wanted::Running, ms.bindings());
    if is_in(Wanted::Running, ms.miniport()) {
        count_up(ms, Wanted::Running, bindings, ms.order()) + 1
    } else {
        0
    }
}
