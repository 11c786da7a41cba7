//! Calls read from JSON.
ghost use Rattle.std.specs.Prelude.{◌≡◌, ◌<◌, IfOk, length, option_map};
ghost use Rattle.serde_json.specs.View.{view};
ghost use Rattle.script_forms.specs.Call.{word_in, call_members, call_options, stack_for, pump_in, binding_number_in, cancel_in, send_in, indicate_in, lend_in, give_back_in, cancel_call_in, oid_kind_in, value_or_empty, ask_in, status_in, insert_in, remove_in, replace_in, relay_in, kind_in, call_in};
ghost use Rattle.script_forms.specs.Results.{Gives};
ghost use Rattle.script_forms.specs.Stack.{bindings_at};
ghost use Rattle.script_forms.specs.Values.{members_in};

use journal_types::Way;
use ndis_base::{
    LaneNo, ListNo, MiniportKind, OidKind, OidValue, oid_kind_of_name, status_name_of_name,
};
use script_forms::members::{
    code_at, filter_number_at, frames_at, member_of, number_at, place_at, text_at,
};
use script_forms::parts::{Trouble, check_members, number_of, text_of, truth_of, value_of};
use script_forms::words::{CallWord, word_of_name};
use script_stacks::filters::filter_of;
use script_types::{Call, CallKind, FilterSetup, ScriptCause, StackSetup};
use serde_json::Value;
use std::alloc::Global;

fn word_of(value: &Value) -> Result<CallWord, Trouble>
    ensures { Gives result (word_in (view value.now)) }
{
    word_of_name(text_of(value)?)
}

fn check_call_members(value: &Value, word: CallWord) -> Result<(), Trouble>
    ensures { Gives result (members_in (call_members word) (call_options word) (view value.now)) }
{
    match word {
        CallWord::Send => check_members(
            value,
            &["lane", "call", "stack", "binding", "frames"],
            &["pump", "cancel"],
        ),
        CallWord::Indicate | CallWord::Lend => {
            check_members(value, &["lane", "call", "stack", "frames"], &["pump"])
        }
        CallWord::GiveBack => check_members(
            value,
            &["lane", "call", "stack", "binding", "list"],
            &["pump"],
        ),
        CallWord::Cancel => check_members(value, &["lane", "call", "stack", "id"], &["pump"]),
        CallWord::Ask => check_members(
            value,
            &["lane", "call", "stack", "binding", "kind", "code"],
            &["pump", "value"],
        ),
        CallWord::Status => check_members(value, &["lane", "call", "stack", "name"], &["pump"]),
        CallWord::Insert => check_members(
            value,
            &["lane", "call", "stack", "position", "filter"],
            &["pump"],
        ),
        CallWord::Remove => check_members(value, &["lane", "call", "stack", "module"], &["pump"]),
        CallWord::Replace => check_members(
            value,
            &["lane", "call", "stack", "module", "filter"],
            &["pump"],
        ),
        CallWord::Relay => check_members(value, &["lane", "call", "stack", "way"], &["pump"]),
        CallWord::Transmit
        | CallWord::Pump
        | CallWord::Drain
        | CallWord::BeginPause
        | CallWord::PauseNext
        | CallWord::RestartNext => check_members(value, &["lane", "call", "stack"], &["pump"]),
    }
}

// The stack of a call: a relay's has a virtual miniport.
fn stack_of_word(word: CallWord, stacks: &[StackSetup], place: u64) -> Result<u64, Trouble>
    requires { place < length stacks.now }
    ensures gives { Gives result (stack_for word stacks.now place) }
    ensures same { IfOk result (λ stack. stack ≡ place) }
{
    match word {
        CallWord::Relay => match stacks[place as usize].miniport.kind {
            MiniportKind::Virtual => Ok(place),
            MiniportKind::Ring | MiniportKind::Loop => Err(Trouble::Bad(ScriptCause::BadLink)),
        },
        _ => Ok(place),
    }
}

fn pump_of(member: Option<&Value>) -> Result<bool, Trouble>
    ensures { Gives result (pump_in (option_map (λ v. view v.now) member.entry)) }
{
    match member {
        Some(value) => truth_of(value),
        None => Ok(true),
    }
}

fn binding_number(value: &Value, count: usize) -> Result<u32, Trouble>
    ensures { Gives result (binding_number_in count (view value.now)) }
{
    Ok(place_at(value, "binding", 7, count)? as u32)
}

fn cancel_of(member: Option<&Value>) -> Result<Option<u32>, Trouble>
    ensures { Gives result (cancel_in (option_map (λ v. view v.now) member.entry)) }
{
    let Some(value) = member else {
        return Ok(None);
    };
    let id = number_of(value, 1, 4294967295)? as u32;
    Ok(Some(id))
}

fn send_of(alloc: Global, value: &Value, count: usize) -> Result<CallKind, Trouble>
    ensures { Gives result (send_in count (view value.now)) }
{
    let binding = binding_number(value, count)?;
    let cancel = cancel_of(value.get("cancel"))?;
    let frames = frames_at(alloc, value, "frames")?;
    Ok(CallKind::Send {
        binding,
        cancel,
        frames,
    })
}

fn indicate_of(alloc: Global, value: &Value) -> Result<CallKind, Trouble>
    ensures { Gives result (indicate_in (view value.now)) }
{
    let frames = frames_at(alloc, value, "frames")?;
    Ok(CallKind::Indicate { frames })
}

fn lend_of(alloc: Global, value: &Value) -> Result<CallKind, Trouble>
    ensures { Gives result (lend_in (view value.now)) }
{
    let frames = frames_at(alloc, value, "frames")?;
    Ok(CallKind::Lend { frames })
}

fn give_back_of(value: &Value, count: usize) -> Result<CallKind, Trouble>
    ensures { Gives result (give_back_in count (view value.now)) }
{
    let binding = binding_number(value, count)?;
    let list = ListNo(number_at(value, "list", 1, 1152921504606846976)?);
    Ok(CallKind::GiveBack { binding, list })
}

fn cancel_call_of(value: &Value) -> Result<CallKind, Trouble>
    ensures { Gives result (cancel_call_in (view value.now)) }
{
    let id = number_at(value, "id", 1, 4294967295)? as u32;
    Ok(CallKind::Cancel { id })
}

fn oid_kind_of(value: &Value) -> Result<OidKind, Trouble>
    ensures { Gives result (oid_kind_in (view value.now)) }
{
    match oid_kind_of_name(text_of(value)?) {
        Some(kind) => Ok(kind),
        None => Err(Trouble::Bad(ScriptCause::Range)),
    }
}

fn value_of_member(alloc: Global, member: Option<&Value>) -> Result<OidValue, Trouble>
    ensures { Gives result (value_or_empty (option_map (λ v. view v.now) member.entry)) }
{
    match member {
        Some(value) => value_of(alloc, value),
        None => Ok(OidValue::of(&[])),
    }
}

fn ask_of(alloc: Global, value: &Value, count: usize) -> Result<CallKind, Trouble>
    ensures { Gives result (ask_in count (view value.now)) }
{
    let binding = binding_number(value, count)?;
    let kind = oid_kind_of(member_of(value, "kind")?)?;
    let code = code_at(alloc, value, "code")?;
    let value = value_of_member(alloc, value.get("value"))?;
    Ok(CallKind::Ask {
        binding,
        kind,
        code,
        value,
    })
}

fn status_of(value: &Value) -> Result<CallKind, Trouble>
    ensures { Gives result (status_in (view value.now)) }
{
    match status_name_of_name(text_at(value, "name")?) {
        Some(name) => Ok(CallKind::Status { name }),
        None => Err(Trouble::Bad(ScriptCause::Range)),
    }
}

fn insert_of(alloc: Global, value: &Value) -> Result<CallKind, Trouble>
    ensures { Gives result (insert_in (view value.now)) }
{
    let position = number_at(value, "position", 0, 255)? as u8;
    let FilterSetup { kind, setup } = filter_of(alloc, member_of(value, "filter")?)?;
    Ok(CallKind::Insert {
        position,
        kind,
        setup,
    })
}

fn remove_of(value: &Value) -> Result<CallKind, Trouble>
    ensures { Gives result (remove_in (view value.now)) }
{
    let filter = filter_number_at(value, "module")?;
    Ok(CallKind::Remove { filter })
}

fn replace_of(alloc: Global, value: &Value) -> Result<CallKind, Trouble>
    ensures { Gives result (replace_in (view value.now)) }
{
    let filter = filter_number_at(value, "module")?;
    let FilterSetup { kind, setup } = filter_of(alloc, member_of(value, "filter")?)?;
    Ok(CallKind::Replace {
        filter,
        kind,
        setup,
    })
}

fn relay_of(value: &Value) -> Result<CallKind, Trouble>
    ensures { Gives result (relay_in (view value.now)) }
{
    match text_at(value, "way")? {
        "down" => Ok(CallKind::Relay { way: Way::Down }),
        "up" => Ok(CallKind::Relay { way: Way::Up }),
        _ => Err(Trouble::Bad(ScriptCause::Range)),
    }
}

fn kind_of(alloc: Global, word: CallWord, value: &Value, count: usize) -> Result<CallKind, Trouble>
    ensures { Gives result (kind_in word count (view value.now)) }
{
    match word {
        CallWord::Send => send_of(alloc, value, count),
        CallWord::Indicate => indicate_of(alloc, value),
        CallWord::Lend => lend_of(alloc, value),
        CallWord::GiveBack => give_back_of(value, count),
        CallWord::Cancel => cancel_call_of(value),
        CallWord::Ask => ask_of(alloc, value, count),
        CallWord::Status => status_of(value),
        CallWord::Transmit => Ok(CallKind::Transmit),
        CallWord::Pump => Ok(CallKind::Pump),
        CallWord::Drain => Ok(CallKind::Drain),
        CallWord::BeginPause => Ok(CallKind::BeginPause),
        CallWord::PauseNext => Ok(CallKind::PauseNext),
        CallWord::RestartNext => Ok(CallKind::RestartNext),
        CallWord::Insert => insert_of(alloc, value),
        CallWord::Remove => remove_of(value),
        CallWord::Replace => replace_of(alloc, value),
        CallWord::Relay => relay_of(value),
    }
}

fn count_of_bindings(stacks: &[StackSetup], place: u64) -> usize
    requires { place < length stacks.now }
    ensures { result ≡ length (bindings_at stacks.now place) }
{
    stacks[place as usize].bindings.items().len()
}

/// A call of a script of so many lanes and of these stacks.
pub fn call_of(
    alloc: Global,
    lanes: u8,
    stacks: &[StackSetup],
    value: &Value,
) -> Result<Call, Trouble>
    ensures { Gives result (call_in lanes stacks.now (view value.now)) }
{
    let word = word_of(member_of(value, "call")?)?;
    check_call_members(value, word)?;
    let lane = place_at(value, "lane", 7, lanes as usize)?;
    let place = place_at(value, "stack", 3, stacks.len())?;
    let stack = stack_of_word(word, stacks, place)?;
    let pump = pump_of(value.get("pump"))?;
    let kind = kind_of(alloc, word, value, count_of_bindings(stacks, stack))?;
    Ok(Call {
        lane: LaneNo(lane as u8),
        stack: stack as u8,
        pump,
        kind,
    })
}
