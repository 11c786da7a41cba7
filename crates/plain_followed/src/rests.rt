//! What is left of the journals for a lane.
ghost use Rattle.std.specs.Prelude.{◌≡◌, ◌+◌, ◌<◌, ◌^◌, if◌then◌else◌, true, ◌==◌, length, All, IfOk, map, option_copied};
ghost use Rattle.promise_rules.specs.Followed.{is_of_lane, next_turn, after_next, next_turn_on, rests_after};

use journal_types::Turn;
use ndis_base::{OutOfMemory, Who};
use std::alloc::Global;

fn is_of_lane(lane: u8, by: Who) -> bool
    ensures { result ≡ is_of_lane lane by }
{
    match by {
        Who::Own => false,
        Who::Call(l) => l.0 == lane,
        Who::Help(l) => l.0 == lane,
    }
}

/// The next turn of a lane.
pub fn next_turn<'a>(lane: u8, turns: &'a [Turn]) -> Option<&'a Turn>
    ensures { option_copied result ≡ next_turn lane turns.now }
{
    match turns {
        [] => None,
        [turn, others @ ..] => {
            if is_of_lane(lane, turn.who) {
                Some(turn)
            } else {
                next_turn(lane, others)
            }
        }
    }
}

/// What is left after the next turn of a lane.
pub fn after_next<'a>(lane: u8, turns: &'a [Turn]) -> &'a [Turn]
    ensures { result.now ≡ after_next lane turns.now }
{
    match turns {
        [] => turns,
        [turn, others @ ..] => {
            if is_of_lane(lane, turn.who) {
                others
            } else {
                after_next(lane, others)
            }
        }
    }
}

/// The next turn of a lane on a stack, where this is left of the journals from a stack on.
pub fn next_turn_on<'a>(lane: u8, s: u8, from: u64, rests: &[&'a [Turn]]) -> Option<&'a Turn>
    requires { from + length rests.now < 2 ^ 64 }
    ensures { option_copied result ≡ next_turn_on lane s from (map (λ r. r.now) rests.now) }
{
    match rests {
        [] => None,
        [rest, others @ ..] => {
            if from == s as u64 {
                next_turn(lane, rest)
            } else {
                next_turn_on(lane, s, from + 1, others)
            }
        }
    }
}

fn rest_after<'a>(lane: u8, s: u8, from: u64, rest: &'a [Turn]) -> &'a [Turn]
    ensures { result.now ≡ (if from == s then after_next lane rest.now else rest.now) }
{
    if from == s as u64 {
        after_next(lane, rest)
    } else {
        rest
    }
}

/// What is left of the journals after the next turn of a lane on a stack.
pub fn rests_after<'a>(
    alloc: Global,
    lane: u8,
    s: u8,
    from: u64,
    rests: &[&'a [Turn]],
) -> Result<Vec<&'a [Turn]>, OutOfMemory>
    requires { from + length rests.now < 2 ^ 64 }
    ensures { IfOk result (λ left. map (λ r. r.now) left.items ≡ rests_after lane s from (map (λ r. r.now) rests.now)) }
{
    match rests {
        [] => Ok(Vec::new(alloc)),
        [rest, others @ ..] => {
            let mut left = rests_after(alloc, lane, s, from + 1, others)?;
            left.insert(0, rest_after(lane, s, from, rest))?;
            Ok(left)
        }
    }
}

/// Whether no turn of a lane is left.
pub fn are_done(lane: u8, rests: &[&[Turn]]) -> bool
    ensures { result ≡ true → All (λ rest. next_turn lane rest ≡ None) (map (λ r. r.now) rests.now) }
{
    match rests {
        [] => true,
        [rest, others @ ..] => next_turn(lane, rest).is_none() && are_done(lane, others),
    }
}
