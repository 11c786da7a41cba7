//! The first or last of some filters that has a pair of handlers.
ghost use Rattle.std.specs.Prelude.{◌≡◌, ◌≤◌, length, take, drop, reverse};
ghost use Rattle.stack_rules.specs.Targets.{first_filter};
ghost use Rattle.stack_rules.specs.Places.{above, position};
ghost use Rattle.stack_modules.specs.Pairs.{has};

use crate::modules::StackModules;
use journal_types::Target;
use ndis_base::ModuleId;

/// A pair of handlers: those of sends, or those of receives; or the handler of statuses.
#[derive(Clone, Copy, PartialEq, Eq)]
pub enum Pair {
    Send,
    Receive,
    Status,
}

fn has_pair(ms: &StackModules, pair: Pair, f: u64) -> bool
    ensures { result ≡ has pair ms.now f }
{
    match pair {
        Pair::Send => ms.has_send(f),
        Pair::Receive => ms.has_receive(f),
        Pair::Status => ms.has_status(f),
    }
}

/// How many filters of an order stand above a filter; all, where it isn't in the order.
fn above(f: u64, order: &[u64]) -> usize
    ensures value { result ≡ above f order.now }
    ensures within { result ≤ length order.now }
{
    for (i, g) in order.iter().enumerate() {
        if *g == f {
            return i;
        }
    }
    order.len()
}

/// The position of a module in an order of filters.
pub fn position(order: &[u64], m: ModuleId) -> usize
    ensures { result ≡ position order.now m }
{
    match m {
        ModuleId::Binding(_) => 0,
        ModuleId::Filter(f) => above(f, order) + 1,
        ModuleId::Miniport => order.len() + 1,
    }
}

/// The first of these filters that has the pair, else the other target.
pub fn first_with(ms: &StackModules, pair: Pair, filters: &[u64], other: Target) -> Target
    ensures { result ≡ first_filter (has pair ms.now) filters.now other }
{
    match filters {
        [] => other,
        [f, others @ ..] => {
            if has_pair(ms, pair, *f) {
                Target::Module(ModuleId::Filter(*f))
            } else {
                first_with(ms, pair, others, other)
            }
        }
    }
}

/// The last of these filters that has the pair, else the other target.
pub fn last_with(ms: &StackModules, pair: Pair, filters: &[u64], other: Target) -> Target
    ensures { result ≡ first_filter (has pair ms.now) (reverse filters.now) other }
{
    match filters {
        [] => other,
        [f, others @ ..] => {
            if has_pair(ms, pair, *f) {
                last_with(ms, pair, others, Target::Module(ModuleId::Filter(*f)))
            } else {
                last_with(ms, pair, others, other)
            }
        }
    }
}

/// The first so many of some numbers.
pub fn front_of(numbers: &[u64], many: usize) -> &[u64]
    ensures { result.now ≡ take many numbers.now }
{
    if many < numbers.len() {
        &numbers[..many]
    } else {
        numbers
    }
}

/// The numbers from a place on.
pub fn rest_of(numbers: &[u64], at: usize) -> &[u64]
    ensures { result.now ≡ drop at numbers.now }
{
    if at < numbers.len() {
        &numbers[at..]
    } else {
        &numbers[numbers.len()..]
    }
}
