//! What a call asks, and of which stack.
ghost use Rattle.std.specs.Prelude.{◌≡◌, true, Some, option_map};
ghost use Rattle.promise_rules.specs.Tails.{stack_asked, event_asked};
ghost use Rattle.promise_rules.specs.Followed.{no_link, vlan_of, link_with, link_in, link_of};

use crate::events::{
    is_ask, is_cancel, is_cross_take_up, is_give_back, is_indicate, is_insert, is_lend, is_remove,
    is_replace, is_send, is_status,
};
use journal_types::{Event, Way};
use promise_rules::Link;
use script_types::{CallKind, StackSetup};

fn vlan_of(vlan: Option<u16>) -> u16
    ensures { result ≡ vlan_of vlan }
{
    match vlan {
        None => 0,
        Some(vlan) => vlan,
    }
}

fn link_with(vlan: Option<u16>, link: Option<(u8, u32)>) -> Link
    ensures { result ≡ link_with vlan link }
{
    match link {
        None => Link {
            lower: 0,
            binding: 0,
            vlan: 0,
        },
        Some(below) => Link {
            lower: below.0,
            binding: below.1,
            vlan: vlan_of(vlan),
        },
    }
}

/// The link of the stack of this number; a stack with no virtual miniport has none.
pub fn link_of(stacks: &[StackSetup], s: u8) -> Link
    ensures { result ≡ link_of stacks.now s }
{
    let at = s as usize;
    if at < stacks.len() {
        link_with(stacks[at].miniport.port.vlan, stacks[at].miniport.link)
    } else {
        link_with(None, None)
    }
}

/// The stack that a call asks.
pub fn stack_asked(link: Link, s: u8, kind: &CallKind) -> u8
    ensures { result ≡ stack_asked link s kind.now }
{
    match kind {
        CallKind::Relay { way } => match *way {
            Way::Up => link.lower,
            Way::Down => s,
        },
        _ => s,
    }
}

fn is_relay(link: Link, way: Way, event: &Event) -> bool
    ensures { result ≡ true → event.now ≡ event_asked link (CallKind.Relay way) }
{
    match way {
        Way::Down => matches!(event, Event::CrossTake),
        Way::Up => is_cross_take_up(event, link.binding, link.vlan),
    }
}

/// Whether the event is what a call asks.
pub fn is_asked(link: Link, kind: &CallKind, event: &Event) -> bool
    ensures { result ≡ true → event.now ≡ event_asked link kind.now }
{
    match kind {
        CallKind::Send {
            binding,
            cancel,
            frames,
        } => is_send(event, *binding, *cancel, frames),
        CallKind::Indicate { frames } => is_indicate(event, frames),
        CallKind::Lend { frames } => is_lend(event, frames),
        CallKind::GiveBack { binding, list } => is_give_back(event, *binding, *list),
        CallKind::Cancel { id } => is_cancel(event, *id),
        CallKind::Ask {
            binding,
            kind,
            code,
            value,
        } => is_ask(event, *binding, *kind, *code, value),
        CallKind::Status { name } => is_status(event, *name),
        CallKind::Transmit => matches!(event, Event::Transmit),
        CallKind::Pump => matches!(event, Event::Pump),
        CallKind::Drain => matches!(event, Event::Drain),
        CallKind::BeginPause => matches!(event, Event::BeginPause),
        CallKind::PauseNext => matches!(event, Event::PauseNext),
        CallKind::RestartNext => matches!(event, Event::RestartNext),
        CallKind::Insert {
            position,
            kind,
            setup,
        } => is_insert(event, *kind, *position as u64, setup),
        CallKind::Remove { filter } => is_remove(event, *filter),
        CallKind::Replace {
            filter,
            kind,
            setup,
        } => is_replace(event, *filter, *kind, setup),
        CallKind::Relay { way } => is_relay(link, *way, event),
    }
}
