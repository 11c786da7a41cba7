//! When an event may be asked: the stack's own head decides it.
ghost use Rattle.std.specs.Prelude.{◌≡◌, ◌+◌, ◌≤◌, length, slice_index_or};
ghost use Rattle.std.specs.List.{list_all, list_any};
ghost use Rattle.ndis_base.specs.declared.ProtocolKind.TheVariants as protocol_kind;
ghost use Rattle.stack_rules.specs.Heads.{numbers_from};
ghost use Rattle.stack_rules.specs.Tests.{is_mux};
ghost use Rattle.stack_rules.specs.Conditions.{is_frame, are_frames, is_fine_test, is_program, is_setup, has_binding, is_identifier, is_cancel, is_link, has_mux, is_lower, may_ask};

use journal_types::{Event, Frames, Setup, StackHead};
use ndis_base::{Frame, ProtocolKind};
use plain_parts::same::is_mux;
use plain_places::outcome::MAX_FRAME;
use program_types::{Program, Rule, Test};

fn all_frames(head: &StackHead, frames: &[Frame]) -> bool
    ensures { result ≡ list_all (is_frame head.now) frames.now }
{
    for frame in frames {
        let len = frame.bytes().len();
        if len < 14 || MAX_FRAME < len {
            return false;
        }
    }
    true
}

/// 1 to 8 frames, each of 14 bytes at least and of the limit at most.
fn are_frames(head: &StackHead, frames: &Frames) -> bool
    ensures { result ≡ are_frames head.now frames.now }
{
    let items = frames.items();
    (1 <= items.len() && items.len() <= 8) && all_frames(head, items)
}

fn is_fine_test(test: Test) -> bool
    ensures { result ≡ is_fine_test test }
{
    match test {
        Test::Vlan(n) => n < 4096,
        _ => true,
    }
}

fn all_fine(rules: &[Rule]) -> bool
    ensures { result ≡ list_all (λ r. is_fine_test r.test) rules.now }
{
    for r in rules {
        if !is_fine_test(r.test) {
            return false;
        }
    }
    true
}

fn is_program(program: &Program) -> bool
    ensures { result ≡ is_program program.now }
{
    program.rules().len() <= 16 && all_fine(program.rules())
}

fn is_setup(s: &Setup) -> bool
    ensures { result ≡ is_setup s.now }
{
    (1 <= s.pool && s.pool <= 256) && (is_program(&s.send) && is_program(&s.receive))
}

fn has_binding(head: &StackHead, b: u32) -> bool
    ensures { result ≡ has_binding head.now b }
{
    (b as usize) < head.bindings.items().len()
}

fn is_identifier(id: u32) -> bool
    ensures { result ≡ is_identifier id }
{
    1 <= id
}

fn is_cancel(cancel: Option<u32>) -> bool
    ensures { result ≡ is_cancel cancel }
{
    match cancel {
        None => true,
        Some(id) => is_identifier(id),
    }
}

/// Whether the binding is a mux binding with a virtual miniport of the VLAN.
fn has_link(b: u32, vlan: u16, links: &[(u8, u32, u16)]) -> bool
    ensures { result ≡ list_any (is_link b vlan) links.now }
{
    for link in links {
        if link.1 == b && link.2 == vlan {
            return true;
        }
    }
    false
}

fn kind_at(bindings: &[(ProtocolKind, usize)], b: usize) -> ProtocolKind
    ensures { result ≡ (slice_index_or bindings.now b (protocol_kind.Log, 0)).0 }
{
    if b < bindings.len() {
        bindings[b].0
    } else {
        ProtocolKind::Log
    }
}

/// Whether a binding of some setups, of which the first is that of the binding `b`, is a mux binding.
fn has_mux_from(
    bindings: &[(ProtocolKind, usize)],
    b: usize,
    setups: &[(ProtocolKind, usize)],
) -> bool
    requires { b + length setups.now ≤ length bindings.now }
    ensures { result ≡ list_any (λ c. is_mux (slice_index_or bindings.now c (protocol_kind.Log, 0)).0) (numbers_from b setups.now) }
{
    match setups {
        [] => false,
        [_, others @ ..] => {
            is_mux(kind_at(bindings, b)) || has_mux_from(bindings, b + 1, others)
        }
    }
}

fn has_mux(head: &StackHead) -> bool
    ensures { result ≡ has_mux head.now }
{
    let bindings = head.bindings.items();
    has_mux_from(bindings, 0, bindings)
}

/// Whether the stack is the one below.
fn is_lower(stack: u8, link: Option<(u8, u32)>) -> bool
    ensures { result ≡ is_lower stack link }
{
    match link {
        None => false,
        Some(link) => link.0 == stack,
    }
}

/// Whether the event may be asked of a stack of this head: its bindings, VLAN and stack exist, and its
/// frames, programs, pool and numbers lie in the ranges that a script may write.
pub fn may_ask(head: &StackHead, event: &Event) -> bool
    ensures { result ≡ may_ask head.now event.now }
{
    match event {
        Event::Insert { setup, .. } => is_setup(setup),
        Event::Remove { filter } => *filter <= 999999999,
        Event::Replace { filter, setup, .. } => *filter <= 999999999 && is_setup(setup),
        Event::Send {
            binding,
            cancel,
            frames,
        } => has_binding(head, *binding) && (is_cancel(*cancel) && are_frames(head, frames)),
        Event::Indicate { frames } => are_frames(head, frames),
        Event::Lend { frames } => are_frames(head, frames),
        Event::GiveBack { binding, list } => {
            has_binding(head, *binding) && (1 <= list.0 && list.0 <= 1152921504606846976)
        }
        Event::Cancel { id } => is_identifier(*id),
        Event::Ask { binding, value, .. } => has_binding(head, *binding)
            && value.bytes().len() <= 8,
        Event::CrossPut {
            stack,
            vlan,
            frames,
            ..
        } => has_mux(head)
            && (*stack < 4 && ((1 <= *vlan && *vlan <= 4094) && are_frames(head, frames))),
        Event::CrossTakeUp { binding, vlan } => {
            has_binding(head, *binding) && has_link(*binding, *vlan, head.uppers.items())
        }
        Event::CrossPutUp { stack, frames, .. } => is_lower(*stack, head.link)
            && are_frames(head, frames),
        _ => true,
    }
}
