//! Tails, the opening and the ending of a stack.
use crate::stacks::{Answer, WalkedStack};
use journal_types::Event;
use ndis_base::{OutOfMemory, Phase, Who};
use plain_parts::copies::copy_setup;
use script_types::FilterSetup;
use std::alloc::Global;

/// A walk gives up a tail of more turns: no script of this size has one.
const MOST_TURNS: usize = 16_777_216;

/// Pumps until one answers idle.
pub fn pump_until_idle(stack: &mut WalkedStack, who: Who) -> Result<(), OutOfMemory> {
    for _ in 0..MOST_TURNS {
        if let Answer::Idle = stack.turn(who, Event::Pump)? {
            return Ok(());
        }
    }
    Err(OutOfMemory)
}

/// After waiting one drain; then a step of the pause; again until paused.
pub fn pause_until_paused(
    stack: &mut WalkedStack,
    who: Who,
    first: Answer,
) -> Result<(), OutOfMemory> {
    let mut last = first;
    for _ in 0..MOST_TURNS {
        match last {
            Answer::Paused => return Ok(()),
            Answer::Waiting => {
                let _ = stack.turn(who, Event::Drain)?;
            }
            _ => {}
        }
        last = stack.turn(who, Event::PauseNext)?;
    }
    Err(OutOfMemory)
}

/// Steps of a restart until running.
pub fn restart_until_running(
    stack: &mut WalkedStack,
    who: Who,
    first: Answer,
) -> Result<(), OutOfMemory> {
    let mut last = first;
    for _ in 0..MOST_TURNS {
        if let Answer::Running = last {
            return Ok(());
        }
        last = stack.turn(who, Event::RestartNext)?;
    }
    Err(OutOfMemory)
}

fn insert_all(
    alloc: Global,
    stack: &mut WalkedStack,
    filters: &[FilterSetup],
) -> Result<(), OutOfMemory> {
    for filter in filters {
        let position = stack.filters()?.saturating_add(1).min(255) as u8;
        let setup = copy_setup(alloc, &filter.setup)?;
        let kind = filter.kind;
        let _ = stack.turn(
            Who::Own,
            Event::Insert {
                kind,
                position,
                setup,
            },
        )?;
    }
    Ok(())
}

/// Opens a stack with its filters, from top to bottom.
pub fn open(
    alloc: Global,
    stack: &mut WalkedStack,
    filters: &[FilterSetup],
) -> Result<(), OutOfMemory> {
    if let Answer::Refused(_) = stack.turn(Who::Own, Event::Initialize)? {
        return Ok(());
    }
    insert_all(alloc, stack, filters)?;
    restart_until_running(stack, Who::Own, Answer::Other)
}

/// Ends a stack: it comes to rest, is paused, and is halted.
pub fn end(stack: &mut WalkedStack) -> Result<(), OutOfMemory> {
    if matches!(stack.phase()?, Phase::Halted) {
        return Ok(());
    }
    if matches!(stack.phase()?, Phase::Pausing) {
        pause_until_paused(stack, Who::Own, Answer::Other)?;
    }
    if matches!(stack.phase()?, Phase::Paused | Phase::Restarting) {
        restart_until_running(stack, Who::Own, Answer::Other)?;
    }
    pump_until_idle(stack, Who::Own)?;
    let begun = stack.turn(Who::Own, Event::BeginPause)?;
    pause_until_paused(stack, Who::Own, begun)?;
    pump_until_idle(stack, Who::Own)?;
    let _ = stack.turn(Who::Own, Event::Halt)?;
    Ok(())
}

/// Which tail an event has, where it isn't refused.
#[derive(Clone, Copy)]
enum Tail {
    Pumps,
    Pauses,
    Restarts,
    None,
}

fn tail_of(event: &Event) -> Tail {
    match event {
        Event::BeginPause | Event::PauseNext => Tail::Pauses,
        Event::RestartNext => Tail::Restarts,
        Event::Insert { .. } | Event::Remove { .. } | Event::Replace { .. } => Tail::None,
        _ => Tail::Pumps,
    }
}

/// A call's event with its tail.
pub fn call(
    stack: &mut WalkedStack,
    who: Who,
    help: Who,
    event: Event,
    pumps: bool,
) -> Result<(), OutOfMemory> {
    let tail = if pumps { tail_of(&event) } else { Tail::None };
    let answer = stack.turn(who, event)?;
    if let Answer::Refused(_) = answer {
        return Ok(());
    }
    match tail {
        Tail::Pumps => pump_until_idle(stack, help),
        Tail::Pauses => pause_until_paused(stack, help, answer),
        Tail::Restarts => restart_until_running(stack, help, answer),
        Tail::None => Ok(()),
    }
}
