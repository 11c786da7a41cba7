//! Scripts read as a whole.
ghost use Rattle.std.specs.Prelude.{◌≡◌, ◌≤◌, [], length, map, None, Some, Ok, List, IfOk, OnOk};
ghost use Rattle.json_tokens.specs.Tokens.{IsValueAt};
ghost use Rattle.serde_json.specs.Data.{Data, number as number_data, unsigned};
ghost use Rattle.serde_json.specs.Read.{read as read_text};
ghost use Rattle.serde_json.specs.View.{view};
ghost use Rattle.json_forms.specs.Lists.{read_all};
ghost use Rattle.script_file.specs.Outlines.{GivesOutline};
ghost use Rattle.script_forms.specs.Results.{GivesAtPlace};
ghost use Rattle.script_forms.specs.Script.{stack_after, call_after, rewires, rewires_stack, other_lane, two_lanes, two_rewirers, outline_in, script_in};
ghost use Rattle.script_forms.specs.Values.{list_in, number_in};
ghost use Rattle.script_file.specs.Reads.{ReadsAs};
ghost use Rattle.script_file.specs.Usual.{IsScriptAt, Joins};

use json::{Reader, Scratch};
use json_tokens::parts::{Unread, begin_object, end_object, name, number_at as number_of_member};
use json_tokens::tree::read_value;
use script_calls::calls::call_of;
use script_forms::members::{items_at, number_at};
use script_forms::parts::{Trouble, check_members, items_of};
use script_stacks::stacks::stack_of;
use script_tokens::calls::each_call as each_call_of_tokens;
use script_types::{
    Call, CallKind, Calls, Script, ScriptCause, ScriptFault, ScriptPlace, StackSetup, Stacks,
};
use serde_json::Value;
use std::alloc::Global;

/// A text of a script has at most this many bytes.
pub const MAX_TEXT: usize = 4194304;

/// The parts of a script before its stacks and calls are read.
pub struct Parts<'v> {
    pub version: u8,
    pub lanes: u8,
    pub stacks: &'v [Value],
    pub calls: &'v [Value],
}

fn parts_of(value: &Value) -> Result<Parts<'_>, Trouble>
    ensures { GivesOutline result (outline_in (view value.now)) }
{
    check_members(value, &["version", "lanes", "stacks", "calls"], &[])?;
    let version = number_at(value, "version", 1, 1)? as u8;
    let lanes = number_at(value, "lanes", 1, 8)? as u8;
    let stacks = items_at(value, "stacks", 1, 4)?;
    let calls = items_at(value, "calls", 0, 16384)?;
    Ok(Parts {
        version,
        lanes,
        stacks,
        calls,
    })
}

fn each_stack(alloc: Global, items: &[Value]) -> Result<Stacks, ScriptFault>
    ensures { GivesAtPlace result (read_all (stack_after (length items.now)) [] (map view items.now)) }
{
    let mut stacks = Vec::new(alloc);
    for (place, item) in items.iter().enumerate() {
        match stack_of(alloc, items.len(), stacks.as_slice(), item) {
            Ok(stack) => match stacks.push(stack) {
                Ok(()) => {}
                Err(_) => return Err(ScriptFault::Memory),
            },
            Err(Trouble::Bad(cause)) => {
                return Err(ScriptFault::Bad {
                    place: ScriptPlace::Stack(place),
                    cause,
                });
            }
            Err(Trouble::Memory) => return Err(ScriptFault::Memory),
        }
    }
    Ok(Stacks::of(stacks))
}

fn each_call(
    alloc: Global,
    lanes: u8,
    stacks: &[StackSetup],
    items: &[Value],
) -> Result<Calls, ScriptFault>
    ensures { GivesAtPlace result (read_all (call_after lanes stacks.now) [] (map view items.now)) }
{
    let mut calls = Vec::new(alloc);
    for (place, item) in items.iter().enumerate() {
        match call_of(alloc, lanes, stacks, item) {
            Ok(call) => match calls.push(call) {
                Ok(()) => {}
                Err(_) => return Err(ScriptFault::Memory),
            },
            Err(Trouble::Bad(cause)) => {
                return Err(ScriptFault::Bad {
                    place: ScriptPlace::Call(place),
                    cause,
                });
            }
            Err(Trouble::Memory) => return Err(ScriptFault::Memory),
        }
    }
    Ok(Calls::of(calls))
}

fn is_rewiring(kind: &CallKind) -> bool
    ensures { result ≡ rewires kind.now }
{
    match kind {
        CallKind::BeginPause
        | CallKind::PauseNext
        | CallKind::RestartNext
        | CallKind::Insert { .. }
        | CallKind::Remove { .. }
        | CallKind::Replace { .. } => true,
        _ => false,
    }
}

fn is_rewiring_of(stack: usize, call: &Call) -> bool
    ensures { result ≡ rewires_stack stack call.now }
{
    call.stack as usize == stack && is_rewiring(&call.kind)
}

fn is_other(first: Option<u8>, lane: u8) -> bool
    ensures { result ≡ other_lane first lane }
{
    match first {
        Some(first) => first != lane,
        None => false,
    }
}

// Whether two lanes rewire one stack.
fn have_two_lanes(stack: usize, calls: &[Call]) -> bool
    ensures { result ≡ two_lanes stack None calls.now }
{
    let mut first = None;
    for call in calls {
        if is_rewiring_of(stack, call) {
            if is_other(first, call.lane.0) {
                return true;
            }
            first = Some(call.lane.0);
        }
    }
    false
}

fn have_two_rewirers(count: usize, calls: &[Call]) -> bool
    ensures { result ≡ two_rewirers count calls.now }
{
    (0..count).any(|stack| have_two_lanes(stack, calls))
}

fn script_of(alloc: Global, value: &Value) -> Result<Script, ScriptFault>
    ensures { GivesAtPlace result (script_in (view value.now)) }
{
    let Parts {
        version,
        lanes,
        stacks,
        calls,
    } = match parts_of(value) {
        Ok(parts) => parts,
        Err(Trouble::Bad(cause)) => {
            return Err(ScriptFault::Bad {
                place: ScriptPlace::Whole,
                cause,
            });
        }
        Err(Trouble::Memory) => return Err(ScriptFault::Memory),
    };
    let stacks = each_stack(alloc, stacks)?;
    let calls = each_call(alloc, lanes, stacks.items(), calls)?;
    if have_two_rewirers(stacks.items().len(), calls.items()) {
        return Err(ScriptFault::Bad {
            place: ScriptPlace::Whole,
            cause: ScriptCause::TwoRewirers,
        });
    }
    Ok(Script {
        version,
        lanes,
        stacks,
        calls,
    })
}

// The stacks of a list of 1 to 4.
fn stacks_in(alloc: Global, value: &Value) -> Result<Stacks, Unread>
    ensures { IfOk result (λ stacks. (ds : List Data) × (list_in 1 4 (view value.now) ≡ Ok ds) × (read_all (stack_after (length ds)) [] ds ≡ Ok stacks)) }
{
    let Ok(items) = items_of(value, 1, 4) else {
        return Err(Unread);
    };
    match each_stack(alloc, items) {
        Ok(stacks) => Ok(stacks),
        Err(_) => Err(Unread),
    }
}

fn check_number(number: u64, low: u64, high: u64) -> Result<(), Unread>
    ensures { OnOk result ((number ≤ high) × (number_in low high (number_data (unsigned number)) ≡ Ok number)) }
{
    if low <= number && number <= high {
        Ok(())
    } else {
        Err(Unread)
    }
}

// The script of these stacks and calls, where no two lanes rewire a stack.
fn join(version: u64, lanes: u64, stacks: Stacks, calls: Calls) -> Result<Script, Unread>
    ensures { IfOk result (λ script. Joins version lanes stacks calls script) }
{
    check_number(version, 1, 1)?;
    check_number(lanes, 1, 8)?;
    if have_two_rewirers(stacks.items().len(), calls.items()) {
        return Err(Unread);
    }
    Ok(Script {
        version: version as u8,
        lanes: lanes as u8,
        stacks,
        calls,
    })
}

// The script that stands first in the tokens, with its members in the usual order.
fn usual_script(alloc: Global, reader: &mut Reader<'_>) -> Result<Script, Unread>
    ensures { IfOk result (λ script. IsScriptAt reader.old script reader.new) }
{
    begin_object(reader)?;
    let version = number_of_member(reader, "version")?;
    let lanes = number_of_member(reader, "lanes")?;
    check_number(lanes, 1, 8)?;
    name(reader, "stacks")?;
    let listed = read_value(alloc, reader, 126)?;
    let stacks = stacks_in(alloc, &listed)?;
    name(reader, "calls")?;
    let calls = each_call_of_tokens(alloc, lanes as u8, stacks.items(), reader)?;
    check_number(calls.items().len() as u64, 0, 16384)?;
    end_object(reader)?;
    join(version, lanes, stacks, calls)
}

fn usual_script_of(alloc: Global, text: &str) -> Result<Script, Unread>
    ensures { IfOk result (λ script. (d : Data) × (read_text text.now ≡ Some d) × (script_in d ≡ Ok script)) }
{
    let mut scratch = Scratch::new(alloc);
    let mut reader = Reader::new(text, &mut scratch)?;
    let script = usual_script(alloc, &mut reader)?;
    match reader.next() {
        None => Ok(script),
        Some(_) => Err(Unread),
    }
}

// The script that a text is, read with no tree of the whole, where the text is of the usual form.
fn read_usual(alloc: Global, bytes: &[u8]) -> Result<Script, Unread>
    requires { length bytes.now ≤ 4194304 }
    ensures { IfOk result (λ script. ReadsAs bytes.now (Ok script)) }
{
    match simdutf8::compat::from_utf8(bytes) {
        Ok(text) => usual_script_of(alloc, text),
        Err(_) => Err(Unread),
    }
}

// The script that any text is, or its first fault.
fn read_any(alloc: Global, bytes: &[u8]) -> Result<Script, ScriptFault>
    requires { length bytes.now ≤ 4194304 }
    ensures { ReadsAs bytes.now result }
{
    match Value::from_slice(alloc, bytes) {
        Ok(value) => script_of(alloc, &value),
        Err(fault) => {
            if fault.is_memory() {
                Err(ScriptFault::Memory)
            } else {
                Err(ScriptFault::Bad {
                    place: ScriptPlace::Whole,
                    cause: ScriptCause::NotJson,
                })
            }
        }
    }
}

/// The script that a text is, or its first fault: TooLong above 4,194,304 bytes, then NotJson, then
/// the faults of the script's own members, of its stacks in order, of its calls in order, and last
/// TwoRewirers.
pub fn read_script(alloc: Global, bytes: &[u8]) -> Result<Script, ScriptFault>
    ensures { ReadsAs bytes.now result }
{
    if bytes.len() > MAX_TEXT {
        return Err(ScriptFault::Bad {
            place: ScriptPlace::Whole,
            cause: ScriptCause::TooLong,
        });
    }
    match read_usual(alloc, bytes) {
        Ok(script) => Ok(script),
        Err(Unread) => read_any(alloc, bytes),
    }
}
