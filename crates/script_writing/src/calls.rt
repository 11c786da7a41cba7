//! Calls written as JSON.
ghost use Rattle.std.specs.Prelude.{◌≡◌, ◌∷◌, map, decimal, string_bytes, IfOk};
ghost use Rattle.serde_json.specs.View.{view, members_view};
ghost use Rattle.program_forms.specs.Written.{hex_data};
ghost use Rattle.script_types.specs.declared.CallKind.TheVariants as ask;
ghost use Rattle.script_forms.specs.Call.{word_text, way_text};
ghost use Rattle.script_writing.specs.Written.{shared_data, bound_data, sent_data, frames_data, plain_data, bringing_data, send_data, insert_data, replace_data, kind_data, call_data};

use crate::filters::filter_value;
use crate::members::{object_with, with_hex, with_member, with_text};
use journal_types::{Setup, Way};
use ndis_base::{
    FilterKind, Frame, ListNo, OidKind, OidValue, OutOfMemory, StatusName, name_of_oid_kind,
    name_of_status_name,
};
use script_forms::words::CallWord;
use script_types::{Call, CallKind};
use serde_json::{Map, Value, json};
use std::alloc::{AllocError, Global};

fn name_of_word(word: CallWord) -> &'static str
    ensures { result.now ≡ word_text word }
{
    match word {
        CallWord::Send => "send",
        CallWord::Indicate => "indicate",
        CallWord::Lend => "lend",
        CallWord::GiveBack => "giveback",
        CallWord::Cancel => "cancel",
        CallWord::Ask => "ask",
        CallWord::Status => "status",
        CallWord::Transmit => "transmit",
        CallWord::Pump => "pump",
        CallWord::Drain => "drain",
        CallWord::BeginPause => "begin_pause",
        CallWord::PauseNext => "pause_next",
        CallWord::RestartNext => "restart_next",
        CallWord::Insert => "insert",
        CallWord::Remove => "remove",
        CallWord::Replace => "replace",
        CallWord::Relay => "relay",
    }
}

fn name_of_way(way: Way) -> &'static str
    ensures { result.now ≡ way_text way }
{
    match way {
        Way::Down => "down",
        Way::Up => "up",
    }
}

fn filter_name(alloc: Global, filter: u64) -> Result<String, AllocError>
    ensures { IfOk result (λ text. string_bytes text ≡ 102 ∷ decimal filter) }
{
    format!(in alloc; "f{filter}")
}

fn frame_value(alloc: Global, frame: &Frame) -> Result<Value, AllocError>
    ensures { IfOk result (λ v. view v ≡ hex_data frame.now) }
{
    let text = hex::encode(alloc, frame.bytes())?;
    json!(in alloc; text)
}

fn frame_values(alloc: Global, frames: &[Frame]) -> Result<Vec<Value>, AllocError>
    ensures { IfOk result (λ v. map view v.items ≡ map hex_data frames.now) }
{
    let mut values = Vec::new(alloc);
    for frame in frames {
        values.push(frame_value(alloc, frame)?)?;
    }
    Ok(values)
}

// The members that each call has.
fn shared_members(
    alloc: Global,
    call: &Call,
    word: CallWord,
) -> Result<Map<String, Value>, AllocError>
    ensures { IfOk result (λ m. members_view m.entries ≡ shared_data call.now word) }
{
    let said = with_text(alloc, Map::new(alloc), "call", name_of_word(word))?;
    let of_lane = with_member(alloc, said, "lane", Value::from(call.lane.0))?;
    let with_pump = with_member(alloc, of_lane, "pump", Value::from(call.pump))?;
    with_member(alloc, with_pump, "stack", Value::from(call.stack))
}

// The members of a call at a binding.
fn bound_members(
    alloc: Global,
    call: &Call,
    word: CallWord,
    binding: u32,
) -> Result<Map<String, Value>, AllocError>
    ensures { IfOk result (λ m. members_view m.entries ≡ bound_data call.now word binding) }
{
    let shared = shared_members(alloc, call, word)?;
    with_member(alloc, shared, "binding", Value::from(binding))
}

fn frames_value(alloc: Global, frames: &[Frame]) -> Result<Value, AllocError>
    ensures { IfOk result (λ v. view v ≡ frames_data frames.now) }
{
    Ok(Value::from(frame_values(alloc, frames)?))
}

fn plain_value(alloc: Global, call: &Call, word: CallWord) -> Result<Value, AllocError>
    ensures { IfOk result (λ v. view v ≡ plain_data call.now word) }
{
    let members = shared_members(alloc, call, word)?;
    Ok(Value::from(members))
}

fn bringing_value(
    alloc: Global,
    call: &Call,
    word: CallWord,
    frames: &[Frame],
) -> Result<Value, AllocError>
    ensures { IfOk result (λ v. view v ≡ bringing_data call.now word frames.now) }
{
    let brought = frames_value(alloc, frames)?;
    let shared = shared_members(alloc, call, word)?;
    object_with(alloc, shared, "frames", brought)
}

// The members of a send, but for its cancel identifier.
fn sent_members(
    alloc: Global,
    call: &Call,
    binding: u32,
    frames: &[Frame],
) -> Result<Map<String, Value>, AllocError>
    ensures { IfOk result (λ m. members_view m.entries ≡ sent_data call.now binding frames.now) }
{
    let sent = frames_value(alloc, frames)?;
    let bound = bound_members(alloc, call, CallWord::Send, binding)?;
    with_member(alloc, bound, "frames", sent)
}

fn send_value(
    alloc: Global,
    call: &Call,
    binding: u32,
    cancel: Option<u32>,
    frames: &[Frame],
) -> Result<Value, AllocError>
    ensures { IfOk result (λ v. view v ≡ send_data call.now binding cancel frames.now) }
{
    let members = sent_members(alloc, call, binding, frames)?;
    match cancel {
        Some(id) => object_with(alloc, members, "cancel", Value::from(id)),
        None => Ok(Value::from(members)),
    }
}

fn give_back_value(
    alloc: Global,
    call: &Call,
    binding: u32,
    list: ListNo,
) -> Result<Value, AllocError>
    ensures { IfOk result (λ v. view v ≡ kind_data call.now (ask.GiveBack binding list)) }
{
    let bound = bound_members(alloc, call, CallWord::GiveBack, binding)?;
    object_with(alloc, bound, "list", Value::from(list.0))
}

fn cancel_value(alloc: Global, call: &Call, id: u32) -> Result<Value, AllocError>
    ensures { IfOk result (λ v. view v ≡ kind_data call.now (ask.Cancel id)) }
{
    let shared = shared_members(alloc, call, CallWord::Cancel)?;
    object_with(alloc, shared, "id", Value::from(id))
}

fn ask_value(
    alloc: Global,
    call: &Call,
    binding: u32,
    kind: OidKind,
    code: u32,
    value: &OidValue,
) -> Result<Value, AllocError>
    ensures { IfOk result (λ v. view v ≡ kind_data call.now (ask.Ask binding kind code value.now)) }
{
    let bound = bound_members(alloc, call, CallWord::Ask, binding)?;
    let of_kind = with_text(alloc, bound, "kind", name_of_oid_kind(kind))?;
    let coded = with_hex(alloc, of_kind, "code", &code.to_be_bytes())?;
    let members = with_hex(alloc, coded, "value", value.bytes())?;
    Ok(Value::from(members))
}

fn status_value(alloc: Global, call: &Call, name: StatusName) -> Result<Value, AllocError>
    ensures { IfOk result (λ v. view v ≡ kind_data call.now (ask.Status name)) }
{
    let shared = shared_members(alloc, call, CallWord::Status)?;
    let members = with_text(alloc, shared, "name", name_of_status_name(name))?;
    Ok(Value::from(members))
}

fn insert_object(
    alloc: Global,
    call: &Call,
    position: u8,
    filter: Value,
) -> Result<Value, AllocError>
    ensures { IfOk result (λ v. view v ≡ insert_data call.now position (view filter)) }
{
    let shared = shared_members(alloc, call, CallWord::Insert)?;
    let placed = with_member(alloc, shared, "position", Value::from(position))?;
    object_with(alloc, placed, "filter", filter)
}

fn insert_value(
    alloc: Global,
    call: &Call,
    position: u8,
    kind: FilterKind,
    setup: &Setup,
) -> Result<Value, OutOfMemory>
    ensures { IfOk result (λ v. view v ≡ kind_data call.now (ask.Insert position kind setup.now)) }
{
    let filter = filter_value(alloc, kind, setup)?;
    Ok(insert_object(alloc, call, position, filter)?)
}

fn remove_value(alloc: Global, call: &Call, filter: u64) -> Result<Value, AllocError>
    ensures { IfOk result (λ v. view v ≡ kind_data call.now (ask.Remove filter)) }
{
    let name = filter_name(alloc, filter)?;
    let shared = shared_members(alloc, call, CallWord::Remove)?;
    object_with(alloc, shared, "module", Value::from(name))
}

fn replace_object(
    alloc: Global,
    call: &Call,
    filter: u64,
    replacement: Value,
) -> Result<Value, AllocError>
    ensures { IfOk result (λ v. view v ≡ replace_data call.now filter (view replacement)) }
{
    let name = filter_name(alloc, filter)?;
    let shared = shared_members(alloc, call, CallWord::Replace)?;
    let named = with_member(alloc, shared, "module", Value::from(name))?;
    object_with(alloc, named, "filter", replacement)
}

fn replace_value(
    alloc: Global,
    call: &Call,
    filter: u64,
    kind: FilterKind,
    setup: &Setup,
) -> Result<Value, OutOfMemory>
    ensures { IfOk result (λ v. view v ≡ kind_data call.now (ask.Replace filter kind setup.now)) }
{
    let replacement = filter_value(alloc, kind, setup)?;
    Ok(replace_object(alloc, call, filter, replacement)?)
}

fn relay_value(alloc: Global, call: &Call, way: Way) -> Result<Value, AllocError>
    ensures { IfOk result (λ v. view v ≡ kind_data call.now (ask.Relay way)) }
{
    let shared = shared_members(alloc, call, CallWord::Relay)?;
    let members = with_text(alloc, shared, "way", name_of_way(way))?;
    Ok(Value::from(members))
}

fn call_value(alloc: Global, call: &Call) -> Result<Value, OutOfMemory>
    ensures { IfOk result (λ v. view v ≡ call_data call.now) }
{
    match &call.kind {
        CallKind::Send {
            binding,
            cancel,
            frames,
        } => Ok(send_value(alloc, call, *binding, *cancel, frames.items())?),
        CallKind::Indicate { frames } => Ok(bringing_value(
            alloc,
            call,
            CallWord::Indicate,
            frames.items(),
        )?),
        CallKind::Lend { frames } => Ok(bringing_value(
            alloc,
            call,
            CallWord::Lend,
            frames.items(),
        )?),
        CallKind::GiveBack { binding, list } => Ok(give_back_value(alloc, call, *binding, *list)?),
        CallKind::Cancel { id } => Ok(cancel_value(alloc, call, *id)?),
        CallKind::Ask {
            binding,
            kind,
            code,
            value,
        } => Ok(ask_value(alloc, call, *binding, *kind, *code, value)?),
        CallKind::Status { name } => Ok(status_value(alloc, call, *name)?),
        CallKind::Transmit => Ok(plain_value(alloc, call, CallWord::Transmit)?),
        CallKind::Pump => Ok(plain_value(alloc, call, CallWord::Pump)?),
        CallKind::Drain => Ok(plain_value(alloc, call, CallWord::Drain)?),
        CallKind::BeginPause => Ok(plain_value(alloc, call, CallWord::BeginPause)?),
        CallKind::PauseNext => Ok(plain_value(alloc, call, CallWord::PauseNext)?),
        CallKind::RestartNext => Ok(plain_value(alloc, call, CallWord::RestartNext)?),
        CallKind::Insert {
            position,
            kind,
            setup,
        } => insert_value(alloc, call, *position, *kind, setup),
        CallKind::Remove { filter } => Ok(remove_value(alloc, call, *filter)?),
        CallKind::Replace {
            filter,
            kind,
            setup,
        } => replace_value(alloc, call, *filter, *kind, setup),
        CallKind::Relay { way } => Ok(relay_value(alloc, call, *way)?),
    }
}

pub fn call_values(alloc: Global, calls: &[Call]) -> Result<Vec<Value>, OutOfMemory>
    ensures { IfOk result (λ v. map view v.items ≡ map call_data calls.now) }
{
    let mut values = Vec::new(alloc);
    for call in calls {
        values.push(call_value(alloc, call)?)?;
    }
    Ok(values)
}
