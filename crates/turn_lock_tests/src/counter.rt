// A counter with a limit.
ghost use Rattle.std.specs.Prelude.{◌≤◌};
ghost use Rattle.turn_lock_tests.specs.Counting.{Counts};

use ndis_base::{OutOfMemory, Phase};
use turn_lock::Turned;

/// A count, which goes up by at most `limit` at a time. It is paused from its first step on.
#[derive(Drop)]
pub struct Counter {
    pub count: u64,
    pub limit: u64,
    pub phase: Phase,
}

impl Turned for Counter {
    type Call = u64;

    type Reply = u64;

    type Fixed = u64;

    ghost fixed = { λ counter. counter.limit };

    ghost fits = { λ limit more. more ≤ limit };

    ghost steps = { Counts };

    ghost phase_of = { λ counter. counter.phase };

    fn step(&mut self, more: u64) -> Result<u64, OutOfMemory> {
        let Some(count) = self.count.checked_add(more) else {
            return Err(OutOfMemory);
        };
        self.count = count;
        self.phase = Phase::Paused;
        Ok(count)
    }

    fn phase(&self) -> Phase {
        self.phase
    }
}
