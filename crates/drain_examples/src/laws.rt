//! The laws on the work that is left, at a journal that ends with a pause.
ghost use Rattle.std.specs.Prelude.{◌≡◌, ◌≤◌, ◌++◌, [], false, true, IfOk, length, drop, take};
ghost use Rattle.std.specs.List.{All};
ghost use Rattle.ndis_base.specs.declared.Phase.TheVariants as Phase;
ghost use Rattle.journal_types.specs.declared.Event.TheVariants as Event;
ghost use Rattle.stack_rules.specs.Net.{lists, seen};
ghost use Rattle.stack_rules.specs.Places.{is_crossed};
ghost use Rattle.stack_rules.specs.Sound.{Sound};
ghost use Rattle.rule_basics.specs.Live.{Each};
ghost use Rattle.drain_laws.specs.Drains.{ends_pause, is_draining, is_waiting_reply, NoneCrossed, PausesAndDrains};
ghost use Rattle.drain_examples.specs.Laws.{MeetsLaws};

use crate::states::{first_turns, other_turns, state_after};
use drain_laws::{accepted_pauses_begin, drains_are_bounded, pauses_end_in_time};
use journal_types::{Event, Reply, StackHead, Turn};
use ndis_base::{OutOfMemory, Phase};
use plain_places::places::is_crossed;
use plain_walk::WalkedStack;
use stack_rules::Thing;
use std::alloc::Global;
use work_laws::{drains_lower_work, pauses_add_nothing, pumps_lower_work};

fn has_binding(head: &StackHead) -> bool
    ensures { result ≡ true → 1 ≤ length head.now.bindings }
{
    !head.bindings.items().is_empty()
}

fn is_pausing(phase: Phase) -> bool
    ensures { result ≡ true → phase ≡ Phase.Pausing }
{
    matches!(phase, Phase::Pausing)
}

fn is_draining(event: &Event) -> bool
    ensures { result ≡ is_draining event.now }
{
    matches!(event, Event::Drain | Event::PauseNext)
}

fn are_draining(turns: &[Turn]) -> bool
    ensures { result ≡ true → All (λ turn. is_draining turn.event ≡ true) turns.now }
{
    match turns {
        [] => true,
        [turn, others @ ..] => is_draining(&turn.event) && are_draining(others),
    }
}

fn are_uncrossed(things: &[Thing]) -> bool
    ensures { result ≡ true → Each (λ l. is_crossed l.crossed ≡ false) (lists things.now) }
{
    match things {
        [] => true,
        [t, others @ ..] => match t {
            Thing::List(l) => !is_crossed(l.crossed) && are_uncrossed(others),
            Thing::Status(_) => are_uncrossed(others),
            Thing::Answer(_) => are_uncrossed(others),
        },
    }
}

fn is_drain(event: &Event) -> bool
    ensures { result ≡ true → event.now ≡ Event.Drain }
{
    matches!(event, Event::Drain)
}

fn is_step(event: &Event) -> bool
    ensures { result ≡ true → event.now ≡ Event.PauseNext }
{
    matches!(event, Event::PauseNext)
}

fn is_waiting(reply: &Reply) -> bool
    ensures { result ≡ is_waiting_reply reply.now }
{
    matches!(reply, Reply::Waiting { .. })
}

fn ends_pause(reply: &Reply) -> bool
    ensures { result ≡ ends_pause reply.now }
{
    matches!(reply, Reply::Paused)
}

/// Whether nothing comes after the end of the pause.
fn ends_there(reply: &Reply, others: &[Turn]) -> bool
    ensures { result ≡ true → ends_pause reply.now ≡ true → others.now ≡ [] }
{
    !ends_pause(reply) || others.is_empty()
}

fn pauses_and_drains(due: bool, turns: &[Turn]) -> bool
    ensures { result ≡ true → PausesAndDrains due turns.now }
{
    match turns {
        [] => true,
        [turn, others @ ..] => {
            if due {
                is_drain(&turn.event) && pauses_and_drains(false, others)
            } else {
                is_step(&turn.event)
                    && ends_there(&turn.reply, others)
                    && pauses_and_drains(is_waiting(&turn.reply), others)
            }
        }
    }
}

/// Each law holds of turns and then a pause.
fn see_laws(head: &StackHead, turns: &[Turn], more: &[Turn])
    requires sound { Sound head.now (turns.now ++ more.now) }
    requires bound { 1 ≤ length head.now.bindings }
    requires pausing { (seen head.now turns.now).phase ≡ Phase.Pausing }
    requires uncrossed { NoneCrossed (seen head.now turns.now) }
    requires driven { PausesAndDrains false more.now }
    requires draining { All (λ turn. is_draining turn.event ≡ true) more.now }
    ensures { MeetsLaws head.now turns.now more.now }
{
    pumps_lower_work();
    drains_lower_work();
    pauses_add_nothing();
    accepted_pauses_begin();
    drains_are_bounded();
    pauses_end_in_time();
}

/// Whether a pause begins after the first turns of a sound journal, and takes all others; if so, each law
/// holds of it.
pub fn shows_laws(alloc: Global, stack: &WalkedStack, begun: usize) -> Result<bool, OutOfMemory>
    requires { Sound stack.now.head stack.now.turns }
    ensures { IfOk result (λ shown. shown ≡ true → MeetsLaws stack.now.head (take begun stack.now.turns) (drop begun stack.now.turns)) }
{
    let head = stack.head();
    let all = stack.journal().turns();
    let turns = first_turns(all, begun);
    let more = other_turns(all, begun);
    let net = state_after(alloc, head, turns)?;
    if !has_binding(head) || !is_pausing(net.phase()) || !are_uncrossed(net.things()) {
        return Ok(false);
    }
    if !are_draining(more) || !pauses_and_drains(false, more) {
        return Ok(false);
    }
    see_laws(head, turns, more);
    Ok(true)
}
