//! What a program makes of a frame, and of the frames of a list.
ghost use Rattle.std.specs.Prelude.{◌≡◌, IfOk, option_map, Some};
ghost use Rattle.std.specs.Str.{bytes_eq};
ghost use Rattle.program_types.specs.Apply.{holds, act, apply_rule, apply, applied, onto};
ghost use Rattle.program_types.specs.declared.Action.TheVariants as action;

use crate::bytes::{
    byte_at, front_of, is_tagged, joined, pair_at, part_of, popped, pushed, rest_of, vlan_of,
};
use journal_types::Frames;
use ndis_base::{Frame, OutOfMemory};
use program_types::{Action, Program, Rule, Test};
use std::alloc::Global;

/// Whether bytes of a frame are those of an address.
fn are_bytes(bytes: &[u8], wanted: &[u8]) -> bool
    ensures { result ≡ bytes_eq bytes.now wanted.now }
{
    bytes == wanted
}

/// Whether a rule's test holds of a frame.
fn holds(test: Test, frame: &[u8]) -> bool
    ensures { result ≡ holds test frame.now }
{
    match test {
        Test::Any => true,
        Test::Tagged => is_tagged(frame),
        Test::Untagged => !is_tagged(frame),
        Test::Dst(address) => are_bytes(part_of(frame, 0, 6), &address),
        Test::Src(address) => are_bytes(part_of(frame, 6, 6), &address),
        Test::EtherType(n) => pair_at(frame, 12) == n,
        Test::Vlan(n) => is_tagged(frame) && vlan_of(frame) == n,
        Test::Longer(n) => (n as usize) < frame.len(),
        Test::Byte { at, value } => (at as usize) < frame.len()
            && byte_at(frame, at as usize) == value,
    }
}

/// The frame with a byte replaced, where it has one there.
fn with_byte(alloc: Global, at: usize, value: u8, frame: &[u8]) -> Result<Frame, OutOfMemory>
    ensures { IfOk result (λ made. Some made ≡ act 0 (action.SetByte at value) frame.now) }
{
    let mut bytes = Vec::from_slice(alloc, frame)?;
    if at < bytes.len() {
        bytes[at] = value;
    }
    Ok(Frame::of(bytes))
}

/// What an action makes of a frame, which must not grow past `max` bytes.
fn act(
    alloc: Global,
    max: usize,
    action: Action,
    frame: Frame,
) -> Result<Option<Frame>, OutOfMemory>
    ensures { IfOk result (λ made. made ≡ act max action frame) }
{
    let bytes = frame.bytes();
    match action {
        Action::Drop => Ok(None),
        Action::Pop => {
            if is_tagged(bytes) {
                Ok(Some(popped(alloc, bytes)?))
            } else {
                Ok(Some(Frame::make(alloc, bytes)?))
            }
        }
        Action::Push(control) => {
            if max < bytes.len() + 4 {
                Ok(None)
            } else {
                Ok(Some(pushed(alloc, control, bytes)?))
            }
        }
        Action::SetDst(address) => Ok(Some(joined(alloc, &[], &address, rest_of(bytes, 6))?)),
        Action::SetSrc(address) => Ok(Some(joined(
            alloc,
            front_of(bytes, 6),
            &address,
            rest_of(bytes, 12),
        )?)),
        Action::SetByte { at, value } => Ok(Some(with_byte(alloc, at as usize, value, bytes)?)),
    }
}

/// What one rule makes of a frame.
fn apply_rule(
    alloc: Global,
    max: usize,
    rule: Rule,
    frame: Frame,
) -> Result<Option<Frame>, OutOfMemory>
    ensures { IfOk result (λ made. made ≡ apply_rule max rule frame) }
{
    if holds(rule.test, frame.bytes()) {
        act(alloc, max, rule.action, frame)
    } else {
        Ok(Some(frame))
    }
}

/// What rules make of a frame, each acting on what those before it left.
fn apply(
    alloc: Global,
    max: usize,
    rules: &[Rule],
    frame: Frame,
) -> Result<Option<Frame>, OutOfMemory>
    ensures { IfOk result (λ made. made ≡ apply max rules.now frame) }
{
    match rules {
        [] => Ok(Some(frame)),
        [rule, others @ ..] => match apply_rule(alloc, max, *rule, frame)? {
            None => Ok(None),
            Some(made) => apply(alloc, max, others, made),
        },
    }
}

/// A frame in front of the others, and none where it or they are missing.
fn onto(frame: Option<Frame>, others: Option<Vec<Frame>>) -> Result<Option<Vec<Frame>>, OutOfMemory>
    ensures { IfOk result (λ all. option_map (λ v. v.items) all ≡ onto frame (option_map (λ v. v.items) others)) }
{
    match frame {
        None => Ok(None),
        Some(frame) => match others {
            None => Ok(None),
            Some(others) => {
                let mut all = others;
                all.insert(0, frame)?;
                Ok(Some(all))
            }
        },
    }
}

/// What rules make of frames.
fn applied_items(
    alloc: Global,
    max: usize,
    rules: &[Rule],
    frames: &[Frame],
) -> Result<Option<Vec<Frame>>, OutOfMemory>
    ensures { IfOk result (λ all. option_map (λ v. v.items) all ≡ applied max rules.now frames.now) }
{
    match frames {
        [] => Ok(Some(Vec::new(alloc))),
        [frame, others @ ..] => {
            let first = apply(alloc, max, rules, Frame::make(alloc, frame.bytes())?)?;
            onto(first, applied_items(alloc, max, rules, others)?)
        }
    }
}

/// What a program makes of the frames of a list, none of which may grow past `max` bytes: none where it
/// makes nothing of one of them.
pub fn applied(
    alloc: Global,
    max: usize,
    program: &Program,
    frames: &Frames,
) -> Result<Option<Frames>, OutOfMemory>
    ensures { IfOk result (λ made. made ≡ applied max program.now frames.now) }
{
    match applied_items(alloc, max, program.rules(), frames.items())? {
        None => Ok(None),
        Some(items) => Ok(Some(Frames::of(items))),
    }
}
