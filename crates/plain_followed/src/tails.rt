//! The tail of a call.
ghost use Rattle.std.specs.Prelude.{◌≡◌, true, IfOk, IfSome, Some};
ghost use Rattle.promise_rules.specs.Tails.{next_stack, next_event, pumped, pumped_both, paused, unless_refused, restarted, status_of_put, pumping_if, tail_after, crossing_tail, crossing_up_tail, tail_of};

use crate::events::{is_cross_done, is_cross_put, is_cross_put_up};
use journal_types::{Event, Refusal, Reply, Way};
use ndis_base::{ListStatus, OutOfMemory};
use plain_parts::copies::copy_frames;
use promise_rules::{Link, Tail};
use script_types::CallKind;
use std::alloc::Global;

/// The stack that a tail asks next.
pub fn next_stack(tail: &Tail) -> Option<u8>
    ensures { result ≡ next_stack tail.now }
{
    match tail {
        Tail::Ended => None,
        Tail::Pumping(s) => Some(*s),
        Tail::PumpingBoth(s, _) => Some(*s),
        Tail::Pausing(s) => Some(*s),
        Tail::Draining(s) => Some(*s),
        Tail::Restarting(s) => Some(*s),
        Tail::Putting { lower, .. } => Some(*lower),
        Tail::EndingMessage { upper, .. } => Some(*upper),
        Tail::PuttingUp { upper, .. } => Some(*upper),
    }
}

/// Whether the event is what a tail asks next.
pub fn is_next(tail: &Tail, event: &Event) -> bool
    ensures { result ≡ true → next_event tail.now ≡ Some event.now }
{
    match tail {
        Tail::Ended => false,
        Tail::Pumping(_) => matches!(event, Event::Pump),
        Tail::PumpingBoth(_, _) => matches!(event, Event::Pump),
        Tail::Pausing(_) => matches!(event, Event::PauseNext),
        Tail::Draining(_) => matches!(event, Event::Drain),
        Tail::Restarting(_) => matches!(event, Event::RestartNext),
        Tail::Putting {
            upper,
            message,
            vlan,
            frames,
            ..
        } => is_cross_put(event, *upper, *message, *vlan, frames),
        Tail::EndingMessage {
            message,
            status,
            ..
        } => is_cross_done(event, *message, *status),
        Tail::PuttingUp {
            lower,
            message,
            frames,
            ..
        } => is_cross_put_up(event, *lower, *message, frames),
    }
}

fn pumped(s: u8, told: &Reply) -> Tail
    ensures { result ≡ pumped s told.now }
{
    match told {
        Reply::Idle => Tail::Ended,
        Reply::Refused(_) => Tail::Ended,
        _ => Tail::Pumping(s),
    }
}

fn pumped_both(s: u8, other: u8, told: &Reply) -> Tail
    ensures { result ≡ pumped_both s other told.now }
{
    match told {
        Reply::Idle => Tail::Pumping(other),
        Reply::Refused(_) => Tail::Ended,
        _ => Tail::PumpingBoth(s, other),
    }
}

fn paused(s: u8, told: &Reply) -> Tail
    ensures { result ≡ paused s told.now }
{
    match told {
        Reply::Paused => Tail::Ended,
        Reply::Waiting { .. } => Tail::Draining(s),
        Reply::Refused(_) => Tail::Ended,
        _ => Tail::Pausing(s),
    }
}

fn unless_refused(tail: Tail, told: &Reply) -> Tail
    ensures { result ≡ unless_refused tail told.now }
{
    match told {
        Reply::Refused(_) => Tail::Ended,
        _ => tail,
    }
}

fn restarted(s: u8, told: &Reply) -> Tail
    ensures { result ≡ restarted s told.now }
{
    match told {
        Reply::Running => Tail::Ended,
        Reply::Refused(_) => Tail::Ended,
        _ => Tail::Restarting(s),
    }
}

fn status_of_put(told: &Reply) -> ListStatus
    ensures { result ≡ status_of_put told.now }
{
    match told {
        Reply::Refused(cause) => match *cause {
            Refusal::Paused { .. } => ListStatus::Paused,
            Refusal::TooLong => ListStatus::Dropped,
            _ => ListStatus::Resources,
        },
        _ => ListStatus::Success,
    }
}

fn pumping_if(pumps: bool, tail: Tail) -> Tail
    ensures { result ≡ pumping_if pumps tail }
{
    if pumps { tail } else { Tail::Ended }
}

/// What is left of a tail after an answer.
pub fn tail_after(tail: &Tail, told: &Reply) -> Tail
    ensures { result ≡ tail_after tail.now told.now }
{
    match tail {
        Tail::Ended => Tail::Ended,
        Tail::Pumping(s) => pumped(*s, told),
        Tail::PumpingBoth(s, other) => pumped_both(*s, *other, told),
        Tail::Pausing(s) => paused(*s, told),
        Tail::Draining(s) => unless_refused(Tail::Pausing(*s), told),
        Tail::Restarting(s) => restarted(*s, told),
        Tail::Putting {
            upper,
            lower,
            message,
            pumps,
            ..
        } => Tail::EndingMessage {
            upper: *upper,
            lower: *lower,
            message: *message,
            status: status_of_put(told),
            pumps: *pumps,
        },
        Tail::EndingMessage {
            upper,
            lower,
            pumps,
            ..
        } => unless_refused(pumping_if(*pumps, Tail::PumpingBoth(*upper, *lower)), told),
        Tail::PuttingUp { upper, pumps, .. } => pumping_if(*pumps, Tail::Pumping(*upper)),
    }
}

fn crossing_tail(
    alloc: Global,
    link: Link,
    upper: u8,
    pumps: bool,
    told: &Reply,
) -> Result<Tail, OutOfMemory>
    ensures { IfOk result (λ tail. tail ≡ crossing_tail link upper pumps told.now) }
{
    match told {
        Reply::Taken { message, frames } => {
            let frames = copy_frames(alloc, frames)?;
            Ok(Tail::Putting {
                upper,
                lower: link.lower,
                message: *message,
                vlan: link.vlan,
                frames,
                pumps,
            })
        }
        _ => Ok(Tail::Ended),
    }
}

fn crossing_up_tail(
    alloc: Global,
    link: Link,
    upper: u8,
    pumps: bool,
    told: &Reply,
) -> Result<Tail, OutOfMemory>
    ensures { IfOk result (λ tail. tail ≡ crossing_up_tail link upper pumps told.now) }
{
    match told {
        Reply::Taken { message, frames } => {
            let frames = copy_frames(alloc, frames)?;
            Ok(Tail::PuttingUp {
                upper,
                lower: link.lower,
                message: *message,
                frames,
                pumps,
            })
        }
        _ => Ok(Tail::Ended),
    }
}

/// The tail of a call that was answered so.
pub fn tail_of(
    alloc: Global,
    link: Link,
    s: u8,
    pumps: bool,
    kind: &CallKind,
    told: &Reply,
) -> Result<Tail, OutOfMemory>
    ensures { IfOk result (λ tail. tail ≡ tail_of link s pumps kind.now told.now) }
{
    match kind {
        CallKind::Relay { way } => match *way {
            Way::Down => crossing_tail(alloc, link, s, pumps, told),
            Way::Up => crossing_up_tail(alloc, link, s, pumps, told),
        },
        CallKind::BeginPause => Ok(pumping_if(pumps, paused(s, told))),
        CallKind::PauseNext => Ok(pumping_if(pumps, paused(s, told))),
        CallKind::RestartNext => Ok(pumping_if(pumps, restarted(s, told))),
        CallKind::Insert { .. } => Ok(Tail::Ended),
        CallKind::Remove { .. } => Ok(Tail::Ended),
        CallKind::Replace { .. } => Ok(Tail::Ended),
        _ => Ok(pumping_if(pumps, unless_refused(Tail::Pumping(s), told))),
    }
}
