ghost use Rattle.std.specs.Prelude.{◌≡◌};

use super::*;
use ndis_base::{Front, OutOfMemory, Phase};
use std::test::*;
use turn_lock::TurnLock;

fn halted() -> Counter
    ensures { (result.count ≡ 0) × (result.limit ≡ 10) }
{
    Counter {
        count: 0,
        limit: 10,
        phase: Phase::Halted,
    }
}

#[test]
fn a_seat_sees_the_turn_of_another(rt: HostRuntime) -> Result<(), Fail> {
    let Ok((lock, mut first)) = TurnLock::make(rt.alloc(), halted(), 2) else {
        panic!(rt; "memory")
    };
    let mut second = lock.split(&mut first);
    let before = lock.look(&mut second);
    assert!(rt; before.turns == 0 && before.phase == Phase::Halted);
    assert!(rt; lock.turn(&rt, &mut first, 7) == Ok(7));
    let after = lock.look(&mut second);
    assert!(rt; after.turns == 1 && after.phase == Phase::Paused);
    assert!(rt; lock.turn(&rt, &mut second, 2) == Ok(9));
    assert!(rt; lock.look(&mut first).turns == 2);
    lock.join(&mut first, second);
    let counter = lock.close(first);
    assert!(rt; counter.count == 9);
    Ok(())
}

#[test]
fn two_threads_take_a_turn_each(rt: HostRuntime) -> Result<(), Fail> {
    assert!(rt; add_in_two_threads(&rt, rt.alloc(), 5, 7) == Some(12));
    Ok(())
}

#[test]
fn a_turn_without_memory_counts(rt: HostRuntime) -> Result<(), Fail> {
    let full = Counter {
        count: u64::MAX,
        limit: 10,
        phase: Phase::Running,
    };
    let Ok((lock, mut seat)) = TurnLock::make(rt.alloc(), full, 1) else {
        panic!(rt; "memory")
    };
    assert!(rt; lock.turn(&rt, &mut seat, 1) == Err(OutOfMemory));
    let front = lock.look(&mut seat);
    assert!(rt; front.turns == 1 && front.phase == Phase::Running);
    let counter = lock.close(seat);
    assert!(rt; counter.count == u64::MAX);
    Ok(())
}
