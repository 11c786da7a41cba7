//! Relays between a virtual miniport's stack and the one below it.
use crate::stacks::{Answer, WalkedStack};
use crate::tails::pump_until_idle;
use journal_types::{Event, Frames, Refusal};
use ndis_base::{CrossNo, ListStatus, OutOfMemory, Who};

/// The stack below, the binding there and the VLAN of a virtual miniport's stack.
#[derive(Clone, Copy)]
pub struct Link {
    pub lower: usize,
    pub binding: u32,
    pub vlan: u16,
}

/// The link of a stack, where its miniport is virtual.
pub fn link_of(stack: &WalkedStack) -> Option<Link> {
    let head = stack.head();
    match head.link {
        None => None,
        Some((lower, binding)) => match head.port.vlan {
            None => None,
            Some(vlan) => Some(Link {
                lower: lower as usize,
                binding,
                vlan,
            }),
        },
    }
}

fn status_of(answer: &Answer) -> ListStatus {
    match answer {
        Answer::Refused(cause) => match cause {
            Refusal::Paused { .. } => ListStatus::Paused,
            Refusal::TooLong => ListStatus::Dropped,
            _ => ListStatus::Resources,
        },
        _ => ListStatus::Success,
    }
}

fn put_down(
    upper: &mut WalkedStack,
    lower: &mut WalkedStack,
    help: Who,
    vlan: u16,
    message: CrossNo,
    frames: Frames,
) -> Result<(), OutOfMemory> {
    let stack = upper.head().stack;
    let answer = lower.turn(
        help,
        Event::CrossPut {
            stack,
            message,
            vlan,
            frames,
        },
    )?;
    let status = status_of(&answer);
    let _ = upper.turn(help, Event::CrossDone { message, status })?;
    Ok(())
}

/// The oldest list of the virtual miniport goes down.
pub fn relay_down(
    upper: &mut WalkedStack,
    lower: &mut WalkedStack,
    who: Who,
    help: Who,
    vlan: u16,
    pumps: bool,
) -> Result<(), OutOfMemory> {
    if let Answer::Taken { message, frames } = upper.turn(who, Event::CrossTake)? {
        put_down(upper, lower, help, vlan, message, frames)?;
        if pumps {
            pump_until_idle(upper, help)?;
            pump_until_idle(lower, help)?;
        }
    }
    Ok(())
}

/// The oldest message of the VLAN goes up.
pub fn relay_up(
    upper: &mut WalkedStack,
    lower: &mut WalkedStack,
    who: Who,
    help: Who,
    link: Link,
    pumps: bool,
) -> Result<(), OutOfMemory> {
    let binding = link.binding;
    let vlan = link.vlan;
    if let Answer::Taken { message, frames } = lower.turn(
        who,
        Event::CrossTakeUp { binding, vlan },
    )? {
        let stack = lower.head().stack;
        let _ = upper.turn(
            help,
            Event::CrossPutUp {
                stack,
                message,
                frames,
            },
        )?;
        if pumps {
            pump_until_idle(upper, help)?;
        }
    }
    Ok(())
}
