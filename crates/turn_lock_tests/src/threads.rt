// Two threads that take turns.
ghost use Rattle.std.specs.Prelude.{◌≡◌, ◌+◌, ◌≤◌, true, [], IfSome};
ghost use Rattle.turn_lock.specs.Account.{IsOf, account_of, seats_of, opening_of};
ghost use Rattle.turn_lock_tests.specs.Counting.{AddsCount, IsShared};

use crate::counter::Counter;
use ndis_base::Phase;
use std::alloc::Global;
use std::sync::Wait;
use std::thread::{Threads, join};
use turn_lock::{Seat, TurnLock};

const LIMIT: u64 = 1000;

/// Adds two numbers to a counter, each in a thread of its own, and answers the count. `None` where memory runs out.
pub fn add_in_two_threads<R: Threads + Wait + Sync>(
    rt: &R,
    alloc: Global,
    first: u64,
    second: u64,
) -> Option<u64>
    requires { (first ≤ LIMIT) × (second ≤ LIMIT) }
    ensures { IfSome result (λ count. count ≡ first + second) }
{
    let counter = Counter {
        count: 0,
        limit: LIMIT,
        phase: Phase::Halted,
    };
    match TurnLock::make(alloc, counter, 2) {
        Ok((lock, seat)) => add_both(rt, lock, seat, first, second),
        Err((_counter, _fault)) => None,
    }
}

fn add_both<R: Threads + Wait + Sync>(
    rt: &R,
    lock: TurnLock<Counter>,
    mut seat: Seat<Counter>,
    first: u64,
    second: u64,
) -> Option<u64>
    requires lock { IsShared lock seat }
    requires fits { (first ≤ (opening_of lock).limit) × (second ≤ (opening_of lock).limit) }
    ensures { IfSome result (λ count. count ≡ (opening_of lock).count + (first + second)) }
{
    let other = lock.split(&mut seat);
    let shared = &lock;
    let ((mut seat, one), (other, two)) = join(
        rt,
        || -> (Seat<Counter>, bool)
            requires { IsOf shared.now seat × (first ≤ (opening_of shared.now).limit) }
            ensures { IsOf shared.entry.now result.0 × AddsCount first result.1 (account_of seat) (account_of result.0) }
        { add(rt, shared, seat, first) },
        || -> (Seat<Counter>, bool)
            requires { IsOf shared.now other × (second ≤ (opening_of shared.now).limit) }
            ensures { IsOf shared.entry.now result.0 × AddsCount second result.1 (account_of other) (account_of result.0) }
        { add(rt, shared, other, second) },
    );
    lock.join(&mut seat, other);
    let counter = lock.close(seat);
    if one && two {
        Some(counter.count)
    } else {
        None
    }
}

fn add<R: Wait>(
    rt: &R,
    lock: &TurnLock<Counter>,
    mut seat: Seat<Counter>,
    more: u64,
) -> (Seat<Counter>, bool)
    requires lock { IsOf lock.now seat }
    requires fits { more ≤ (opening_of lock.now).limit }
    ensures lock { IsOf lock.now result.0 }
    ensures adds { AddsCount more result.1 (account_of seat) (account_of result.0) }
{
    let reply = lock.turn(rt, &mut seat, more);
    (seat, reply.is_ok())
}
