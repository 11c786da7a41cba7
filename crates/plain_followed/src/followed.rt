//! Whether the calls of a lane stand in the journals.
ghost use Rattle.std.specs.Prelude.{◌≡◌, true, IfOk, Some, map};
ghost use Rattle.ndis_base.specs.declared.Who.TheVariants as who;
ghost use Rattle.promise_rules.specs.Tails.{event_asked, next_event};
ghost use Rattle.promise_rules.specs.Followed.{Follows, IsFollowed, link_of};

use crate::asked::{is_asked, link_of, stack_asked};
use crate::rests::{are_done, next_turn_on, rests_after};
use crate::tails::{is_next, next_stack, tail_after, tail_of};
use journal_types::Turn;
use ndis_base::{LaneNo, OutOfMemory, Who};
use promise_rules::Tail;
use script_types::{Call, StackSetup};
use std::alloc::Global;

fn is_who(by: Who, wanted: Who) -> bool
    ensures { result ≡ true → by ≡ wanted }
{
    by == wanted
}

fn is_call_turn(stacks: &[StackSetup], lane: LaneNo, call: &Call, turn: &Turn) -> bool
    ensures by { result ≡ true → turn.now.who ≡ who.Call lane }
    ensures what { result ≡ true → turn.now.event ≡ event_asked (link_of stacks.now call.now.stack) call.now.kind }
{
    is_who(turn.who, Who::Call(lane))
        && is_asked(link_of(stacks, call.stack), &call.kind, &turn.event)
}

fn is_help_turn(lane: LaneNo, tail: &Tail, turn: &Turn) -> bool
    ensures by { result ≡ true → turn.now.who ≡ who.Help lane }
    ensures what { result ≡ true → next_event tail.now ≡ Some turn.now.event }
{
    is_who(turn.who, Who::Help(lane)) && is_next(tail, &turn.event)
}

// Whether the rest of a tail and then the lane's calls among these are what is left of the journals, in `most`
// turns at most.
fn follow(
    alloc: Global,
    most: u64,
    stacks: &[StackSetup],
    lane: LaneNo,
    calls: &[Call],
    tail: &Tail,
    rests: &[&[Turn]],
) -> Result<bool, OutOfMemory>
    ensures { IfOk result (λ holds. holds ≡ true → Follows stacks.now lane calls.now tail.now (map (λ r. r.now) rests.now)) }
{
    match next_stack(tail) {
        Some(s) => match next_turn_on(lane.0, s, 0, rests) {
            None => Ok(false),
            Some(turn) => {
                if most == 0 || !is_help_turn(lane, tail, turn) {
                    return Ok(false);
                }
                let left = rests_after(alloc, lane.0, s, 0, rests)?;
                let more = tail_after(tail, &turn.reply);
                follow(alloc, most - 1, stacks, lane, calls, &more, left.as_slice())
            }
        },
        None => match calls {
            [] => Ok(are_done(lane.0, rests)),
            [call, others @ ..] => {
                if call.lane.0 != lane.0 {
                    return follow(alloc, most, stacks, lane, others, tail, rests);
                }
                let link = link_of(stacks, call.stack);
                let s = stack_asked(link, call.stack, &call.kind);
                match next_turn_on(lane.0, s, 0, rests) {
                    None => Ok(false),
                    Some(turn) => {
                        if most == 0 || !is_call_turn(stacks, lane, call, turn) {
                            return Ok(false);
                        }
                        let left = rests_after(alloc, lane.0, s, 0, rests)?;
                        let more = tail_of(
                            alloc,
                            link,
                            call.stack,
                            call.pump,
                            &call.kind,
                            &turn.reply,
                        )?;
                        follow(
                            alloc,
                            most - 1,
                            stacks,
                            lane,
                            others,
                            &more,
                            left.as_slice(),
                        )
                    }
                }
            }
        },
    }
}

fn count_turns(journals: &[&[Turn]]) -> u64 {
    let mut n = 0u64;
    for turns in journals {
        n = n.saturating_add(turns.len() as u64);
    }
    n
}

/// Whether the journals of all stacks, from stack 0, follow the calls of a lane.
pub fn is_followed(
    alloc: Global,
    stacks: &[StackSetup],
    lane: LaneNo,
    calls: &[Call],
    journals: &[&[Turn]],
) -> Result<bool, OutOfMemory>
    ensures { IfOk result (λ yes. yes ≡ true → IsFollowed stacks.now lane calls.now (map (λ j. j.now) journals.now)) }
{
    let most = count_turns(journals);
    follow(alloc, most, stacks, lane, calls, &Tail::Ended, journals)
}
