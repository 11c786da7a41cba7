//! The pools and places with which a stack begins.
ghost use Rattle.std.specs.Prelude.{◌≡◌, ◌+◌, ◌≤◌, ◌++◌, [], OnOk, IfOk, length, map, replicate};
ghost use Rattle.std.specs.Vec.{vec_capacity, vec_len};
ghost use Rattle.promise_rules.specs.Drivers.{places_from};
ghost use Rattle.book_lemmas.specs.Views.{no_pool};
ghost use Rattle.book_opening.specs.Opened.{pool_for, kind_of};

use buffer_pools::ListPool;
use driver_calls::FilterCalls;
use ndis_base::{OutOfMemory, ProtocolKind};
use std::alloc::Global;

const MAX_FRAME: usize = 1518;

/// The pools of the bindings.
pub fn make_pools(
    alloc: Global,
    setups: &[(ProtocolKind, usize)],
) -> Result<Vec<ListPool>, OutOfMemory>
    ensures { IfOk result (λ v. v.items ≡ map pool_for setups.now) }
{
    let mut pools = Vec::new(alloc);
    for setup in setups {
        pools.push(ListPool::make(alloc, setup.1, MAX_FRAME)?)?;
    }
    Ok(pools)
}

/// Pools without lists, for filters that aren't attached.
pub fn no_pools(alloc: Global, many: usize) -> Result<Vec<ListPool>, OutOfMemory>
    ensures { IfOk result (λ v. v.items ≡ replicate many no_pool) }
{
    let mut pools = Vec::new(alloc);
    for place in 0..many {
        pools.push(ListPool::make(alloc, 0, MAX_FRAME)?)?;
    }
    Ok(pools)
}

fn push_places<F: FilterCalls>(places: &mut Vec<usize>, filters: &[F])
    requires { vec_len places.old + length filters.now ≤ vec_capacity places.old }
    ensures { places.new.items ≡ places.old.items ++ places_from (vec_len places.old) (map kind_of (map F.state filters.now)) }
{
    if let [_, others @ ..] = filters {
        let place = places.len();
        places.push_reserved(place);
        push_places(places, others);
    }
}

/// The places of all filters' drivers, in the order in which they were handed in.
pub fn places_of<F: FilterCalls>(alloc: Global, filters: &[F]) -> Result<Vec<usize>, OutOfMemory>
    ensures { IfOk result (λ v. v.items ≡ places_from 0 (map kind_of (map F.state filters.now))) }
{
    let mut places = Vec::with_capacity(alloc, filters.len())?;
    push_places(&mut places, filters);
    Ok(places)
}
