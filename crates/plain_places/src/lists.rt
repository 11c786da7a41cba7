//! Which lists a position has outstanding, which a module keeps or owns, and what is on its way.
ghost use Rattle.std.specs.Prelude.{◌≡◌, ◌+◌, IfOk, option_copied, filter, count_by, find, slice_index_or};
ghost use Rattle.std.specs.List.{list_any};
ghost use Rattle.ndis_base.specs.declared.ModuleState.TheVariants as state;
ghost use Rattle.ndis_base.specs.declared.ProtocolKind.TheVariants as protocol_kind;
ghost use Rattle.stack_rules.specs.Heads.{binding_numbers, numbers_from};
ghost use Rattle.stack_rules.specs.Net.{lists};
ghost use Rattle.stack_rules.specs.Places.{is_away, is_counted_at, outstanding, is_kept_by, kept_lists, is_clone_of, has_clone, is_waiting, ready_lists, agenda_first, owned, pool_of, is_full, state_of};
ghost use Rattle.stack_rules.specs.Tests.{same_module};

use crate::places::{counts_at, is_away, is_clone_of, is_crossed, is_kept_by};
use journal_types::StackHead;
use ndis_base::{ModuleId, ModuleState, OutOfMemory, ProtocolKind};
use plain_net::PlainNet;
use plain_parts::copies::copy_list;
use plain_parts::same::same_module;
use plain_state::filters::{pool_in, state_in};
use stack_rules::{LiveList, Thing};
use std::alloc::Global;

fn count_outstanding(order: &[u64], i: usize, things: &[Thing]) -> usize
    ensures { result ≡ count_by (is_counted_at order.now i) (lists things.now) }
{
    let mut n = 0;
    for t in things {
        if let Thing::List(l) = t {
            if counts_at(order, i, l) {
                n += 1;
            }
        }
    }
    n
}

/// How many lists a position has outstanding.
pub fn outstanding(net: &PlainNet, i: usize) -> usize
    ensures { result ≡ outstanding net.now i }
{
    count_outstanding(net.modules().order(), i, net.things())
}

fn kept_in(alloc: Global, m: ModuleId, things: &[Thing]) -> Result<Vec<LiveList>, OutOfMemory>
    ensures { IfOk result (λ kept. kept.items ≡ filter (λ l. is_kept_by m l.stand) (lists things.now)) }
{
    let mut kept = Vec::new(alloc);
    for t in things {
        if let Thing::List(l) = t {
            if is_kept_by(m, l.stand) {
                kept.push(copy_list(alloc, l)?)?;
            }
        }
    }
    Ok(kept)
}

/// The lists that a module keeps, the one that it has kept longest first.
pub fn kept_lists(alloc: Global, net: &PlainNet, m: ModuleId) -> Result<Vec<LiveList>, OutOfMemory>
    ensures { IfOk result (λ kept. kept.items ≡ kept_lists net.now m) }
{
    kept_in(alloc, m, net.things())
}

fn has_clone_in(n: u64, things: &[Thing]) -> bool
    ensures { result ≡ list_any (λ l. is_clone_of n l.origin) (lists things.now) }
{
    for t in things {
        if let Thing::List(l) = t {
            if is_clone_of(n, l.origin) {
                return true;
            }
        }
    }
    false
}

/// Whether a clone of the list of this number is live.
pub fn has_clone(net: &PlainNet, n: u64) -> bool
    ensures { result ≡ has_clone net.now n }
{
    has_clone_in(n, net.things())
}

/// Whether a kept list waits: it has crossed to another stack, or a clone of it is live.
pub fn waits(net: &PlainNet, l: &LiveList) -> bool
    ensures { result ≡ is_waiting net.now l.now }
{
    is_crossed(l.crossed) || has_clone(net, l.list.0)
}

/// The lists that a module keeps and that don't wait, the one that it has kept longest first.
pub fn ready_lists(alloc: Global, net: &PlainNet, m: ModuleId) -> Result<Vec<LiveList>, OutOfMemory>
    ensures { IfOk result (λ ready. ready.items ≡ ready_lists net.now m) }
{
    let kept = kept_lists(alloc, net, m)?;
    let mut ready = Vec::new(alloc);
    for l in kept {
        if !waits(net, &l) {
            ready.push(l)?;
        }
    }
    Ok(ready)
}

fn first_away(things: &[Thing]) -> Option<&Thing>
    ensures { option_copied result ≡ find is_away things.now }
{
    for t in things {
        if is_away(t) {
            return Some(t);
        }
    }
    None
}

/// What a pump works: the first that is on its way.
pub fn agenda_first(net: &PlainNet) -> Option<&Thing>
    ensures { option_copied result ≡ agenda_first net.now }
{
    first_away(net.things())
}

fn count_owned(m: ModuleId, things: &[Thing]) -> usize
    ensures { result ≡ count_by (λ l. same_module l.owner m) (lists things.now) }
{
    let mut n = 0;
    for t in things {
        if let Thing::List(l) = t {
            if same_module(l.owner, m) {
                n += 1;
            }
        }
    }
    n
}

/// How many of the live lists a module owns.
pub fn owned(net: &PlainNet, m: ModuleId) -> usize
    ensures { result ≡ owned net.now m }
{
    count_owned(m, net.things())
}

fn binding_setup(head: &StackHead, b: u32) -> (ProtocolKind, usize)
    ensures { result ≡ slice_index_or head.now.bindings b (protocol_kind.Log, 0) }
{
    let bindings = head.bindings.items();
    if (b as usize) < bindings.len() {
        bindings[b as usize]
    } else {
        (ProtocolKind::Log, 0)
    }
}

/// How many lists a module's pool has.
pub fn pool_of(net: &PlainNet, m: ModuleId) -> usize
    ensures { result ≡ pool_of net.now m }
{
    match m {
        ModuleId::Miniport => net.head().port.pool,
        ModuleId::Binding(b) => binding_setup(net.head(), b).1,
        ModuleId::Filter(f) => pool_in(net.modules().attached(f)),
    }
}

/// Whether a module's pool is full: the module owns as many live lists as it has.
pub fn is_full(net: &PlainNet, m: ModuleId) -> bool
    ensures { result ≡ is_full net.now m }
{
    owned(net, m) == pool_of(net, m)
}

fn binding_state(states: &[ModuleState], b: u32) -> ModuleState
    ensures { result ≡ slice_index_or states.now b state.Unbound }
{
    if (b as usize) < states.len() {
        states[b as usize]
    } else {
        ModuleState::Unbound
    }
}

/// The state of a module; a filter that isn't attached is Detached.
pub fn state_of(net: &PlainNet, m: ModuleId) -> ModuleState
    ensures { result ≡ state_of net.now m }
{
    match m {
        ModuleId::Miniport => net.modules().miniport(),
        ModuleId::Binding(b) => binding_state(net.modules().bindings(), b),
        ModuleId::Filter(f) => state_in(net.modules().attached(f)),
    }
}

/// The number of the next binding. One past the greatest counts as want of memory.
pub fn next_binding(b: u32) -> Result<u32, OutOfMemory>
    ensures { IfOk result (λ next. next ≡ b + 1) }
{
    if b < u32::MAX {
        Ok(b + 1)
    } else {
        Err(OutOfMemory)
    }
}

fn numbers_from(
    alloc: Global,
    b: u32,
    setups: &[(ProtocolKind, usize)],
) -> Result<Vec<u32>, OutOfMemory>
    ensures { IfOk result (λ numbers. numbers.items ≡ numbers_from b setups.now) }
{
    match setups {
        [] => Ok(Vec::new(alloc)),
        [_, others @ ..] => {
            let mut numbers = numbers_from(alloc, next_binding(b)?, others)?;
            numbers.insert(0, b)?;
            Ok(numbers)
        }
    }
}

/// The numbers of the bindings, in rising order.
pub fn binding_numbers(alloc: Global, head: &StackHead) -> Result<Vec<u32>, OutOfMemory>
    ensures { IfOk result (λ numbers. numbers.items ≡ binding_numbers head.now) }
{
    numbers_from(alloc, 0, head.bindings.items())
}
