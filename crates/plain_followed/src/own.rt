//! Whether a stack is opened before all calls and ended after them.
ghost use Rattle.std.specs.Prelude.{◌≡◌, ◌≢◌, ◌≤◌, ◌<◌, ◌+◌, ◌^◌, true, All, IfOk, IfSome, OnOk, length, take, ◌++◌, Some};
ghost use Rattle.ndis_base.specs.declared.Who.TheVariants as who;
ghost use Rattle.stack_rules.specs.Net.{seen, after_rows, after_turn, after_turns};
ghost use Rattle.promise_rules.specs.Own.{opening_event, initialised, inserted, started, opening_after, filters_after, ending_of, ending_event, paused_first, paused_last, restarted, idle_then, ending_after};
ghost use Rattle.promise_rules.specs.Followed.{IsOwnTurn, Opens, Ends, IsOpenedAndEnded};

use crate::events::is_insert;
use journal_types::{Event, Reply, Row, StackHead, Turn};
use ndis_base::{OutOfMemory, Phase, Who};
use plain_net::PlainNet;
use promise_rules::{Ending, Opening};
use script_types::FilterSetup;
use std::alloc::Global;

fn is_opening_event(opening: Opening, filters: &[FilterSetup], event: &Event) -> bool
    ensures { result ≡ true → opening_event opening filters.now ≡ Some event.now }
{
    match opening {
        Opening::Initialising => matches!(event, Event::Initialize),
        Opening::Inserting(attached) => match filters {
            [] => matches!(event, Event::RestartNext),
            [filter, ..] => attached < u64::MAX
                && is_insert(event, filter.kind, attached + 1, &filter.setup),
        },
        Opening::Opened => false,
    }
}

fn initialised(told: &Reply) -> Opening
    ensures { result ≡ initialised told.now }
{
    match told {
        Reply::Refused(_) => Opening::Opened,
        _ => Opening::Inserting(0),
    }
}

fn inserted(attached: u64, told: &Reply) -> Option<Opening>
    ensures { IfSome result (λ next. next ≡ inserted attached told.now) }
{
    match told {
        Reply::Inserted { .. } => {
            if attached < u64::MAX {
                Some(Opening::Inserting(attached + 1))
            } else {
                None
            }
        }
        _ => Some(Opening::Inserting(attached)),
    }
}

fn started(attached: u64, told: &Reply) -> Opening
    ensures { result ≡ started attached told.now }
{
    match told {
        Reply::Running => Opening::Opened,
        _ => Opening::Inserting(attached),
    }
}

fn is_own(by: Who) -> bool
    ensures { result ≡ true → by ≡ who.Own }
{
    matches!(by, Who::Own)
}

fn opening_after(opening: Opening, filters: &[FilterSetup], told: &Reply) -> Option<Opening>
    ensures { IfSome result (λ next. next ≡ opening_after opening filters.now told.now) }
{
    match opening {
        Opening::Initialising => Some(initialised(told)),
        Opening::Inserting(attached) => match filters {
            [] => Some(started(attached, told)),
            [_, ..] => inserted(attached, told),
        },
        Opening::Opened => Some(Opening::Opened),
    }
}

fn filters_after<'a>(opening: Opening, filters: &'a [FilterSetup]) -> &'a [FilterSetup]
    ensures { result.now ≡ filters_after opening filters.now }
{
    match opening {
        Opening::Inserting(_) => match filters {
            [] => filters,
            [_, more @ ..] => more,
        },
        _ => filters,
    }
}

fn is_opened(opening: Opening) -> bool
    ensures { result ≡ true → opening ≡ Opening.Opened }
{
    matches!(opening, Opening::Opened)
}

fn is_opening_turn(opening: Opening, filters: &[FilterSetup], turn: &Turn) -> bool
    ensures { result ≡ true → IsOwnTurn (opening_event opening filters.now) turn.now }
{
    is_own(turn.who) && is_opening_event(opening, filters, &turn.event)
}

// How many turns the opening has that these turns begin with.
#[tactic(auto, using(crate::proofs::OwnLemmas::opens_none, crate::proofs::OwnLemmas::opens_more))]
fn after_opening(opening: Opening, filters: &[FilterSetup], turns: &[Turn]) -> Option<usize>
    ensures within { IfSome result (λ n. n ≤ length turns.now) }
    ensures opens { IfSome result (λ n. Opens opening filters.now (take n turns.now)) }
{
    if is_opened(opening) {
        return Some(0);
    }
    match turns {
        [] => None,
        [turn, others @ ..] => {
            if !is_opening_turn(opening, filters, turn) {
                return None;
            }
            match opening_after(opening, filters, &turn.reply) {
                None => None,
                Some(next) => match after_opening(next, filters_after(opening, filters), others) {
                    None => None,
                    Some(n) => Some(n + 1),
                },
            }
        }
    }
}

fn is_other(by: Who) -> bool
    ensures { result ≡ true → by ≢ who.Own }
{
    match by {
        Who::Own => false,
        _ => true,
    }
}

// How many turns of the lanes these turns begin with.
#[tactic(auto, using(crate::proofs::OwnLemmas::others_none, crate::proofs::OwnLemmas::others_more))]
fn count_others(turns: &[Turn]) -> usize
    ensures within { result ≤ length turns.now }
    ensures others { All (λ t. t.who ≢ who.Own) (take result turns.now) }
{
    match turns {
        [] => 0,
        [turn, others @ ..] => {
            if is_other(turn.who) {
                count_others(others) + 1
            } else {
                0
            }
        }
    }
}

fn ending_of(phase: Phase) -> Ending
    ensures { result ≡ ending_of phase }
{
    match phase {
        Phase::Halted => Ending::Ended,
        Phase::Pausing => Ending::PausingFirst,
        Phase::Paused => Ending::Restarting,
        Phase::Restarting => Ending::Restarting,
        Phase::Running => Ending::Pumping,
    }
}

fn is_ending_event(ending: Ending, event: &Event) -> bool
    ensures { result ≡ true → ending_event ending ≡ Some event.now }
{
    match ending {
        Ending::PausingFirst => matches!(event, Event::PauseNext),
        Ending::DrainingFirst => matches!(event, Event::Drain),
        Ending::Restarting => matches!(event, Event::RestartNext),
        Ending::Pumping => matches!(event, Event::Pump),
        Ending::BeginningPause => matches!(event, Event::BeginPause),
        Ending::Pausing => matches!(event, Event::PauseNext),
        Ending::Draining => matches!(event, Event::Drain),
        Ending::PumpingLast => matches!(event, Event::Pump),
        Ending::Halting => matches!(event, Event::Halt),
        Ending::Ended => false,
    }
}

fn paused_first(told: &Reply) -> Ending
    ensures { result ≡ paused_first told.now }
{
    match told {
        Reply::Paused => Ending::Restarting,
        Reply::Waiting { .. } => Ending::DrainingFirst,
        _ => Ending::PausingFirst,
    }
}

fn paused_last(told: &Reply) -> Ending
    ensures { result ≡ paused_last told.now }
{
    match told {
        Reply::Paused => Ending::PumpingLast,
        Reply::Waiting { .. } => Ending::Draining,
        _ => Ending::Pausing,
    }
}

fn restarted(told: &Reply) -> Ending
    ensures { result ≡ restarted told.now }
{
    match told {
        Reply::Running => Ending::Pumping,
        _ => Ending::Restarting,
    }
}

fn idle_then(next: Ending, again: Ending, told: &Reply) -> Ending
    ensures { result ≡ idle_then next again told.now }
{
    match told {
        Reply::Idle => next,
        _ => again,
    }
}

fn ending_after(ending: Ending, told: &Reply) -> Ending
    ensures { result ≡ ending_after ending told.now }
{
    match ending {
        Ending::PausingFirst => paused_first(told),
        Ending::DrainingFirst => Ending::PausingFirst,
        Ending::Restarting => restarted(told),
        Ending::Pumping => idle_then(Ending::BeginningPause, Ending::Pumping, told),
        Ending::BeginningPause => paused_last(told),
        Ending::Pausing => paused_last(told),
        Ending::Draining => Ending::Pausing,
        Ending::PumpingLast => idle_then(Ending::Halting, Ending::PumpingLast, told),
        Ending::Halting => Ending::Ended,
        Ending::Ended => Ending::Ended,
    }
}

fn is_ended(ending: Ending) -> bool
    ensures { result ≡ true → ending ≡ Ending.Ended }
{
    matches!(ending, Ending::Ended)
}

fn is_ending_turn(ending: Ending, turn: &Turn) -> bool
    ensures { result ≡ true → IsOwnTurn (ending_event ending) turn.now }
{
    is_own(turn.who) && is_ending_event(ending, &turn.event)
}

fn ends(ending: Ending, turns: &[Turn]) -> bool
    ensures { result ≡ true → Ends ending turns.now }
{
    match turns {
        [] => is_ended(ending),
        [turn, others @ ..] => is_ending_turn(ending, turn)
            && ends(ending_after(ending, &turn.reply), others),
    }
}

fn note_rows(net: &mut PlainNet, rows: &[Row]) -> Result<(), OutOfMemory>
    ensures { OnOk result (net.new ≡ after_rows net.old rows.now) }
{
    match rows {
        [] => Ok(()),
        [row, others @ ..] => {
            net.note(row)?;
            note_rows(net, others)
        }
    }
}

fn note_turn(net: &mut PlainNet, turn: &Turn) -> Result<(), OutOfMemory>
    ensures { OnOk result (net.new ≡ after_turn net.old turn.now) }
{
    net.tell(&turn.event, &turn.reply)?;
    note_rows(net, turn.rows.items())
}

fn note_turns(net: &mut PlainNet, turns: &[Turn]) -> Result<(), OutOfMemory>
    ensures { OnOk result (net.new ≡ after_turns net.old turns.now) }
{
    match turns {
        [] => Ok(()),
        [turn, others @ ..] => {
            note_turn(net, turn)?;
            note_turns(net, others)
        }
    }
}

#[tactic(auto, using(crate::proofs::OwnLemmas::after_both))]
fn phase_after(
    alloc: Global,
    head: &StackHead,
    opening: &[Turn],
    middle: &[Turn],
) -> Result<Phase, OutOfMemory>
    ensures { IfOk result (λ phase. phase ≡ (seen head.now (opening.now ++ middle.now)).phase) }
{
    let mut net = PlainNet::start(alloc, head)?;
    note_turns(&mut net, opening)?;
    note_turns(&mut net, middle)?;
    Ok(net.phase())
}

/// Whether a journal is the opening of its stack, the turns of the lanes, and its ending.
pub fn is_opened_and_ended(
    alloc: Global,
    head: &StackHead,
    filters: &[FilterSetup],
    turns: &[Turn],
) -> Result<bool, OutOfMemory>
    ensures { IfOk result (λ yes. yes ≡ true → IsOpenedAndEnded head.now filters.now turns.now) }
{
    match after_opening(Opening::Initialising, filters, turns) {
        None => Ok(false),
        Some(n) => {
            let (opening, rest) = turns.split_at(n);
            let (middle, last) = rest.split_at(count_others(rest));
            let phase = phase_after(alloc, head, opening, middle)?;
            Ok(ends(ending_of(phase), last))
        }
    }
}
