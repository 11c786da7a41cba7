//! Calls, and their frames.
ghost use Rattle.std.specs.Prelude.{◌≡◌, ◌<◌, ◌≤◌, [], ℕ, List, Ok, codes, length, IfOk};
ghost use Rattle.json_forms.specs.Lists.{read_all};
ghost use Rattle.json_tokens.specs.Tokens.{AreMembersAt, IsValueAt};
ghost use Rattle.serde_json.specs.Data.{Data, Members, array, number as number_data, object, string, unsigned};
ghost use Rattle.serde_json.specs.View.{items_of, members_view};
ghost use Rattle.script_forms.specs.Call.{call_in};
ghost use Rattle.script_forms.specs.Script.{call_after};
ghost use Rattle.script_forms.specs.Stack.{bindings_at};
ghost use Rattle.script_forms.specs.Values.{frame_in, frames_in, place_in};
ghost use Rattle.script_tokens.specs.Usual.{EndsCall, EndsCallBehind, laned_members, named_members, placed_members, pumped_members, send_members};

use crate::digits::decode;
use journal_types::Frames;
use json::Reader;
use json_tokens::parts::{
    Unread, begin_array, begin_object, end_object, name, number, number_at, text, truth,
};
use json_tokens::tree::{read_members, read_value};
use ndis_base::{Frame, LaneNo};
use script_calls::calls::call_of;
use script_types::{Call, CallKind, Calls, StackSetup};
use serde_json::{Map, Value, put};
use std::alloc::Global;

fn frame_of_text(alloc: Global, digits: &str) -> Result<Frame, Unread>
    ensures { IfOk result (λ f. frame_in (string digits.now) ≡ Ok f) }
{
    match decode(alloc, digits) {
        Ok(bytes) => {
            if 14 <= bytes.len() && bytes.len() <= 1518 {
                Ok(Frame::of(bytes))
            } else {
                Err(Unread)
            }
        }
        Err(_) => Err(Unread),
    }
}

fn frame(alloc: Global, reader: &mut Reader<'_>) -> Result<Frame, Unread>
    ensures { IfOk result (λ f. (d : Data) × ((depth : ℕ) → IsValueAt depth reader.old d reader.new) × (frame_in d ≡ Ok f)) }
{
    let digits = text(reader)?;
    frame_of_text(alloc, digits)
}

fn each_frame(alloc: Global, reader: &mut Reader<'_>) -> Result<Vec<Frame>, Unread>
    ensures { IfOk result (λ fs. (ds : List Data) × IsValueAt 124 reader.old (array (items_of ds)) reader.new × (length ds ≡ length fs.items) × (read_all (λ before. frame_in) [] ds ≡ Ok fs.items)) }
{
    begin_array(reader)?;
    let mut frames = Vec::new(alloc);
    'frames: while !reader.take_end_array() {
        let next = frame(alloc, reader)?;
        frames.push(next)?;
    }
    Ok(frames)
}

fn frames(alloc: Global, reader: &mut Reader<'_>) -> Result<Frames, Unread>
    ensures { IfOk result (λ fs. (d : Data) × IsValueAt 124 reader.old d reader.new × (frames_in d ≡ Ok fs)) }
{
    let frames = each_frame(alloc, reader)?;
    if 1 <= frames.len() && frames.len() <= 8 {
        Ok(Frames::of(frames))
    } else {
        Err(Unread)
    }
}

fn check_place(place: u64, high: u64, count: usize) -> Result<(), Unread>
    ensures { IfOk result (λ _. (place ≤ high) × (place < count) × (place_in high count (number_data (unsigned place)) ≡ Ok place)) }
{
    if place <= high && place < count as u64 {
        Ok(())
    } else {
        Err(Unread)
    }
}

fn count_of_bindings(stacks: &[StackSetup], place: u64) -> usize
    requires { place < length stacks.now }
    ensures { result ≡ length (bindings_at stacks.now place) }
{
    stacks[place as usize].bindings.items().len()
}

fn sent(
    lanes: u8,
    stacks: &[StackSetup],
    lane: u64,
    stack: u64,
    binding: u64,
    frames: Frames,
    pump: Option<bool>,
) -> Result<Call, Unread>
    ensures { IfOk result (λ call. (d : Data) → frames_in d ≡ Ok frames → call_in lanes stacks.now (object (pumped_members pump (send_members lane stack binding d))) ≡ Ok call) }
{
    check_place(lane, 7, lanes as usize)?;
    check_place(stack, 3, stacks.len())?;
    check_place(binding, 7, count_of_bindings(stacks, stack))?;
    Ok(Call {
        lane: LaneNo(lane as u8),
        stack: stack as u8,
        pump: pump.unwrap_or(true),
        kind: CallKind::Send {
            binding: binding as u32,
            cancel: None,
            frames,
        },
    })
}

fn transmitted(lanes: u8, stacks: &[StackSetup], lane: u64, stack: u64) -> Result<Call, Unread>
    ensures { IfOk result (λ call. call_in lanes stacks.now (object (placed_members lane (codes "transmit") stack)) ≡ Ok call) }
{
    check_place(lane, 7, lanes as usize)?;
    check_place(stack, 3, stacks.len())?;
    Ok(Call {
        lane: LaneNo(lane as u8),
        stack: stack as u8,
        pump: true,
        kind: CallKind::Transmit,
    })
}

fn laned(alloc: Global, lane: u64) -> Result<Map<String, Value>, Unread>
    ensures { IfOk result (λ m. members_view m.entries ≡ laned_members lane) }
{
    let mut members = Map::new(alloc);
    put(&mut members, alloc, "lane", Value::from(lane))?;
    Ok(members)
}

fn named(alloc: Global, lane: u64, word: &str) -> Result<Map<String, Value>, Unread>
    ensures { IfOk result (λ m. members_view m.entries ≡ named_members lane word.now) }
{
    let mut members = laned(alloc, lane)?;
    put(
        &mut members,
        alloc,
        "call",
        Value::try_from_str(alloc, word)?,
    )?;
    Ok(members)
}

fn placed(alloc: Global, lane: u64, word: &str, stack: u64) -> Result<Map<String, Value>, Unread>
    ensures { IfOk result (λ m. members_view m.entries ≡ placed_members lane word.now stack) }
{
    let mut members = named(alloc, lane, word)?;
    put(&mut members, alloc, "stack", Value::from(stack))?;
    Ok(members)
}

// The members of any call, as a tree, beside those found before.
fn by_tree(
    alloc: Global,
    lanes: u8,
    stacks: &[StackSetup],
    found: Map<String, Value>,
    reader: &mut Reader<'_>,
) -> Result<Call, Unread>
    ensures { IfOk result (λ call. EndsCall lanes stacks.now (members_view found.entries) reader.old reader.new call) }
{
    let value = Value::from(read_members(alloc, reader, 124, found)?);
    match call_of(alloc, lanes, stacks, &value) {
        Ok(call) => Ok(call),
        Err(_) => Err(Unread),
    }
}

// The same behind the name of a member.
fn by_tree_from(
    alloc: Global,
    lanes: u8,
    stacks: &[StackSetup],
    found: Map<String, Value>,
    key: &str,
    reader: &mut Reader<'_>,
) -> Result<Call, Unread>
    ensures { IfOk result (λ call. EndsCallBehind lanes stacks.now (members_view found.entries) key.now reader.old reader.new call) }
{
    let value = read_value(alloc, reader, 124)?;
    let mut more = found;
    put(&mut more, alloc, key, value)?;
    by_tree(alloc, lanes, stacks, more, reader)
}

// Whether a call is pumped, where its last member tells it.
fn last_pump(reader: &mut Reader<'_>) -> Result<Option<bool>, Unread>
    ensures { IfOk result (λ pump. (before : Members) → AreMembersAt 124 before reader.old (pumped_members pump before) reader.new) }
{
    match reader.next_key()? {
        None => Ok(None),
        Some("pump") => {
            let pump = truth(reader)?;
            end_object(reader)?;
            Ok(Some(pump))
        }
        Some(_) => Err(Unread),
    }
}

// A send behind the name of its binding, which its frames follow, and then nothing but whether it is
// pumped.
fn bound_send(
    alloc: Global,
    lanes: u8,
    stacks: &[StackSetup],
    lane: u64,
    stack: u64,
    reader: &mut Reader<'_>,
) -> Result<Call, Unread>
    ensures { IfOk result (λ call. EndsCallBehind lanes stacks.now (placed_members lane (codes "send") stack) (codes "binding") reader.old reader.new call) }
{
    let binding = number(reader)?;
    name(reader, "frames")?;
    let frames = frames(alloc, reader)?;
    let pump = last_pump(reader)?;
    sent(lanes, stacks, lane, stack, binding, frames, pump)
}

fn send_behind(
    alloc: Global,
    lanes: u8,
    stacks: &[StackSetup],
    lane: u64,
    stack: u64,
    key: &str,
    reader: &mut Reader<'_>,
) -> Result<Call, Unread>
    ensures { IfOk result (λ call. EndsCallBehind lanes stacks.now (placed_members lane (codes "send") stack) key.now reader.old reader.new call) }
{
    match key {
        "binding" => bound_send(alloc, lanes, stacks, lane, stack, reader),
        _ => {
            let found = placed(alloc, lane, "send", stack)?;
            by_tree_from(alloc, lanes, stacks, found, key, reader)
        }
    }
}

fn send(
    alloc: Global,
    lanes: u8,
    stacks: &[StackSetup],
    lane: u64,
    reader: &mut Reader<'_>,
) -> Result<Call, Unread>
    ensures { IfOk result (λ call. EndsCall lanes stacks.now (named_members lane (codes "send")) reader.old reader.new call) }
{
    let stack = number_at(reader, "stack")?;
    match reader.next_key()? {
        Some(key) => send_behind(alloc, lanes, stacks, lane, stack, key, reader),
        None => Err(Unread),
    }
}

fn transmit_behind(
    alloc: Global,
    lanes: u8,
    stacks: &[StackSetup],
    lane: u64,
    stack: u64,
    key: &str,
    reader: &mut Reader<'_>,
) -> Result<Call, Unread>
    ensures { IfOk result (λ call. EndsCallBehind lanes stacks.now (placed_members lane (codes "transmit") stack) key.now reader.old reader.new call) }
{
    let found = placed(alloc, lane, "transmit", stack)?;
    by_tree_from(alloc, lanes, stacks, found, key, reader)
}

fn transmit(
    alloc: Global,
    lanes: u8,
    stacks: &[StackSetup],
    lane: u64,
    reader: &mut Reader<'_>,
) -> Result<Call, Unread>
    ensures { IfOk result (λ call. EndsCall lanes stacks.now (named_members lane (codes "transmit")) reader.old reader.new call) }
{
    let stack = number_at(reader, "stack")?;
    match reader.next_key()? {
        None => transmitted(lanes, stacks, lane, stack),
        Some(key) => transmit_behind(alloc, lanes, stacks, lane, stack, key, reader),
    }
}

fn other(
    alloc: Global,
    lanes: u8,
    stacks: &[StackSetup],
    lane: u64,
    word: &str,
    reader: &mut Reader<'_>,
) -> Result<Call, Unread>
    ensures { IfOk result (λ call. EndsCall lanes stacks.now (named_members lane word.now) reader.old reader.new call) }
{
    let found = named(alloc, lane, word)?;
    by_tree(alloc, lanes, stacks, found, reader)
}

fn call_of_word(
    alloc: Global,
    lanes: u8,
    stacks: &[StackSetup],
    lane: u64,
    word: &str,
    reader: &mut Reader<'_>,
) -> Result<Call, Unread>
    ensures { IfOk result (λ call. EndsCall lanes stacks.now (named_members lane word.now) reader.old reader.new call) }
{
    match word {
        "send" => send(alloc, lanes, stacks, lane, reader),
        "transmit" => transmit(alloc, lanes, stacks, lane, reader),
        _ => other(alloc, lanes, stacks, lane, word, reader),
    }
}

// A call behind its lane and the name of its next member.
fn call_behind(
    alloc: Global,
    lanes: u8,
    stacks: &[StackSetup],
    lane: u64,
    key: &str,
    reader: &mut Reader<'_>,
) -> Result<Call, Unread>
    ensures { IfOk result (λ call. EndsCallBehind lanes stacks.now (laned_members lane) key.now reader.old reader.new call) }
{
    match key {
        "call" => {
            let word = text(reader)?;
            call_of_word(alloc, lanes, stacks, lane, word, reader)
        }
        _ => {
            let found = laned(alloc, lane)?;
            by_tree_from(alloc, lanes, stacks, found, key, reader)
        }
    }
}

fn call(
    alloc: Global,
    lanes: u8,
    stacks: &[StackSetup],
    reader: &mut Reader<'_>,
) -> Result<Call, Unread>
    ensures { IfOk result (λ call. (d : Data) × IsValueAt 125 reader.old d reader.new × (call_in lanes stacks.now d ≡ Ok call)) }
{
    begin_object(reader)?;
    let lane = number_at(reader, "lane")?;
    match reader.next_key()? {
        Some(key) => call_behind(alloc, lanes, stacks, lane, key, reader),
        None => Err(Unread),
    }
}

/// The calls of a script of so many lanes and of these stacks, one at a time. Each begins with its
/// lane. No tree is made of a transmit, nor of a send whose other members are its binding, its frames
/// and whether it is pumped, in this order.
pub fn each_call(
    alloc: Global,
    lanes: u8,
    stacks: &[StackSetup],
    reader: &mut Reader<'_>,
) -> Result<Calls, Unread>
    ensures { IfOk result (λ calls. (ds : List Data) × IsValueAt 126 reader.old (array (items_of ds)) reader.new × (length ds ≡ length calls) × (read_all (call_after lanes stacks.now) [] ds ≡ Ok calls)) }
{
    begin_array(reader)?;
    let mut calls = Vec::new(alloc);
    'calls: while !reader.take_end_array() {
        let next = call(alloc, lanes, stacks, reader)?;
        calls.push(next)?;
    }
    Ok(Calls::of(calls))
}
