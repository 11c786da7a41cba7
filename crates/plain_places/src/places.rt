//! Positions of modules and lists: position 0 is the bindings, then come the filters from top to bottom,
//! and then the miniport.
ghost use Rattle.std.specs.Prelude.{◌≡◌, ◌≤◌, Some, length};
ghost use Rattle.stack_rules.specs.declared.Stand.TheVariants as stand;
ghost use Rattle.stack_rules.specs.Places.{above, position, position_of_target, position_in, is_at_most, is_counted_at, is_kept_by, is_passed, is_clone_of, is_crossed, is_away};

use journal_types::{PassWay, Target};
use ndis_base::{CrossNo, ModuleId, Origin};
use plain_parts::same::same_module;
use stack_rules::{LiveList, Stand, Thing};

/// How many filters of an order stand above a filter; all, where it isn't in the order.
pub fn above(f: u64, order: &[u64]) -> usize
    ensures value { result ≡ above f order.now }
    ensures within { result ≤ length order.now }
{
    for (i, g) in order.iter().enumerate() {
        if *g == f {
            return i;
        }
    }
    order.len()
}

/// The position of a module in an order of filters.
pub fn position(order: &[u64], m: ModuleId) -> usize
    ensures { result ≡ position order.now m }
{
    match m {
        ModuleId::Binding(_) => 0,
        ModuleId::Filter(f) => above(f, order) + 1,
        ModuleId::Miniport => order.len() + 1,
    }
}

fn position_of_target(order: &[u64], to: Target) -> usize
    ensures { result ≡ position_of_target order.now to }
{
    match to {
        Target::Module(m) => position(order, m),
        Target::Bindings => 0,
    }
}

fn position_passed(order: &[u64], last: ModuleId, way: PassWay, to: Target) -> usize
    ensures { Some result ≡ position_in order.now last (stand.Passed way to) }
{
    match way {
        PassWay::Down => position_of_target(order, to),
        PassWay::Back(_) => position_of_target(order, to),
        PassWay::Done(_) => position(order, last),
        PassWay::Up => position(order, last),
    }
}

fn position_in(order: &[u64], last: ModuleId, at: Stand) -> Option<usize>
    ensures { result ≡ position_in order.now last at }
{
    match at {
        Stand::Unplaced => None,
        Stand::Kept(m) => Some(position(order, m)),
        Stand::Passed { way, to } => Some(position_passed(order, last, way, to)),
    }
}

fn is_at_most(i: usize, p: Option<usize>) -> bool
    ensures { result ≡ is_at_most i p }
{
    match p {
        None => false,
        Some(p) => p <= i,
    }
}

/// Whether a list is outstanding at a position: a module there owns it, or it stands there or above.
pub fn counts_at(order: &[u64], i: usize, l: &LiveList) -> bool
    ensures { result ≡ is_counted_at order.now i l.now }
{
    position(order, l.owner) == i || is_at_most(i, position_in(order, l.last, l.stand))
}

/// Whether a list that stands so is kept by a module.
pub fn is_kept_by(m: ModuleId, at: Stand) -> bool
    ensures { result ≡ is_kept_by m at }
{
    match at {
        Stand::Kept(keeper) => same_module(keeper, m),
        _ => false,
    }
}

fn is_passed(at: Stand) -> bool
    ensures { result ≡ is_passed at }
{
    matches!(at, Stand::Passed { .. })
}

/// Whether a list of this origin is a clone of the list of a number.
pub fn is_clone_of(n: u64, origin: Origin) -> bool
    ensures { result ≡ is_clone_of n origin }
{
    match origin {
        Origin::Clone(o) => o.0 == n,
        _ => false,
    }
}

/// Whether a list was taken to another stack in a message.
pub fn is_crossed(crossed: Option<CrossNo>) -> bool
    ensures { result ≡ is_crossed crossed }
{
    match crossed {
        None => false,
        Some(_) => true,
    }
}

/// Whether a thing is on its way.
pub fn is_away(t: &Thing) -> bool
    ensures { result ≡ is_away t.now }
{
    match t {
        Thing::List(l) => is_passed(l.stand),
        Thing::Status(_) => true,
        Thing::Answer(_) => true,
    }
}
