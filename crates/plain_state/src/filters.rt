//! The filters that are attached.
ghost use Rattle.std.specs.Prelude.{◌≡◌, ◌==◌, not, IfOk, option_copied, filter, map};
ghost use Rattle.stack_rules.specs.Net.{attached, with_state, is_detached, filters_after, handlers_of, below};
ghost use Rattle.stack_rules.specs.Places.{pool_in, state_in};
ghost use Rattle.stack_rules.specs.Cancels.{hold_in};

use ndis_base::{Handlers, ModuleState, OutOfMemory};
use plain_parts::same::is_hold;
use stack_rules::Attached;
use std::alloc::Global;

/// The attached filter of this number.
pub fn attached(f: u64, entries: &[Attached]) -> Option<&Attached>
    ensures { option_copied result ≡ attached f entries.now }
{
    for a in entries {
        if a.filter == f {
            return Some(a);
        }
    }
    None
}

/// A filter's handlers; a filter that isn't attached has none.
pub fn handlers_of(a: Option<&Attached>) -> Handlers
    ensures { result ≡ handlers_of (option_copied a.entry) }
{
    match a {
        None => Handlers {
            send: false,
            receive: false,
            oid: false,
            status: false,
        },
        Some(a) => a.setup.handlers,
    }
}

/// How many lists a filter's pool has; none where it isn't attached.
pub fn pool_in(a: Option<&Attached>) -> usize
    ensures { result ≡ pool_in (option_copied a.entry) }
{
    match a {
        None => 0,
        Some(a) => a.setup.pool,
    }
}

/// A filter's state; one that isn't attached is Detached.
pub fn state_in(a: Option<&Attached>) -> ModuleState
    ensures { result ≡ state_in (option_copied a.entry) }
{
    match a {
        None => ModuleState::Detached,
        Some(a) => a.state,
    }
}

/// Whether a filter is attached and is a hold filter.
pub fn hold_in(a: Option<&Attached>) -> bool
    ensures { result ≡ hold_in (option_copied a.entry) }
{
    match a {
        None => false,
        Some(a) => is_hold(a.kind),
    }
}

fn with_state(f: u64, s: ModuleState, a: Attached) -> Attached
    ensures { result ≡ with_state f s a }
{
    let mut a = a;
    if a.filter == f {
        a.state = s;
    }
    a
}

fn is_detached(s: ModuleState) -> bool
    ensures { result ≡ is_detached s }
{
    matches!(s, ModuleState::Detached)
}

/// The filters after one took a state; a filter that is Detached is forgotten.
pub fn filters_after(
    alloc: Global,
    f: u64,
    s: ModuleState,
    entries: Vec<Attached>,
) -> Result<Vec<Attached>, OutOfMemory>
    ensures { IfOk result (λ after. after.items ≡ filters_after f s entries.items) }
{
    if is_detached(s) {
        without_filter(alloc, f, entries)
    } else {
        with_states(alloc, f, s, entries)
    }
}

fn without_filter(
    alloc: Global,
    f: u64,
    entries: Vec<Attached>,
) -> Result<Vec<Attached>, OutOfMemory>
    ensures { IfOk result (λ after. after.items ≡ filter (λ a. not (a.filter == f)) entries.items) }
{
    let mut after = Vec::new(alloc);
    for a in entries {
        if a.filter != f {
            after.push(a)?;
        }
    }
    Ok(after)
}

fn with_states(
    alloc: Global,
    f: u64,
    s: ModuleState,
    entries: Vec<Attached>,
) -> Result<Vec<Attached>, OutOfMemory>
    ensures { IfOk result (λ after. after.items ≡ map (with_state f s) entries.items) }
{
    let mut after = Vec::new(alloc);
    for a in entries {
        after.push(with_state(f, s, a))?;
    }
    Ok(after)
}

/// The filters that stand below this one in an order from top to bottom.
pub fn below(f: u64, order: &[u64]) -> &[u64]
    ensures { result.now ≡ below f order.now }
{
    match order {
        [] => order,
        [g, others @ ..] => { if *g == f { others } else { below(f, others) } }
    }
}
