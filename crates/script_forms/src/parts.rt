//! The values of a script's members: numbers, words, truth values, hexadecimal texts and lists.
ghost use Rattle.std.specs.Prelude.{◌≡◌, ◌+◌, ◌<◌, ◌≤◌, [], length, map, IfOk};
ghost use Rattle.hex.specs.Hex.{decode_of};
ghost use Rattle.serde_json.specs.View.{view};
ghost use Rattle.script_forms.specs.declared.parts.Trouble.TheVariants as trouble;
ghost use Rattle.script_forms.specs.Results.{Gives, GivesItems, GivesText, GivesViews};
ghost use Rattle.json_forms.specs.Lists.{read_all};
ghost use Rattle.std.specs.List.{list_all};
ghost use Rattle.std.specs.Char.{is_ascii_digit};
ghost use Rattle.script_forms.specs.Values.{members_in, number_in, text_in, truth_in, list_in, hex_in, address_in, code_in, value_in, frame_in, frames_in, filter_of_digits, filter_of_text, filter_name_in};

use hex::FromHexError;
use journal_types::Frames;
use json_forms::is_object_of;
use ndis_base::{Frame, OidValue};
use script_types::ScriptCause;
use serde_json::Value;
use std::alloc::{AllocError, AllocFailed, Global};
use thiserror::Error;

/// Why a part of a script was not read.
#[derive(Clone, Copy, Debug, PartialEq, Eq, Error)]
pub enum Trouble {
    #[error("{0}")]
    Bad(ScriptCause),
    #[error("out of memory")]
    Memory,
}

impl From<AllocError> for Trouble {
    ghost from_gives = { λ e t. t ≡ trouble.Memory };

    fn from(_fault: AllocError) -> Trouble {
        Trouble::Memory
    }
}

impl<T: Drop> From<AllocFailed<T>> for Trouble {
    ghost from_gives = { λ e t. t ≡ trouble.Memory };

    fn from(_fault: AllocFailed<T>) -> Trouble {
        Trouble::Memory
    }
}

/// Checks that the value is an object with just these members, of which the optional ones may be
/// left out. No name is listed twice, and fewer than 16 are listed.
pub fn check_members(value: &Value, required: &[&str], optional: &[&str]) -> Result<(), Trouble>
    requires { length required.now + length optional.now < 16 }
    ensures { Gives result (members_in (map (λ n. n.now) required.now) (map (λ n. n.now) optional.now) (view value.now)) }
{
    if is_object_of(value, required, optional) {
        Ok(())
    } else {
        Err(Trouble::Bad(ScriptCause::Shape))
    }
}

/// A whole number from `low` to `high`.
pub fn number_of(value: &Value, low: u64, high: u64) -> Result<u64, Trouble>
    ensures gives { Gives result (number_in low high (view value.now)) }
    ensures within { IfOk result (λ n. n ≤ high) }
{
    match value.as_u64() {
        Some(number) => {
            if low <= number && number <= high {
                Ok(number)
            } else {
                Err(Trouble::Bad(ScriptCause::Range))
            }
        }
        None => {
            if value.is_i64() {
                Err(Trouble::Bad(ScriptCause::Range))
            } else {
                Err(Trouble::Bad(ScriptCause::Shape))
            }
        }
    }
}

/// A truth value.
pub fn truth_of(value: &Value) -> Result<bool, Trouble>
    ensures { Gives result (truth_in (view value.now)) }
{
    match value.as_bool() {
        Some(truth) => Ok(truth),
        None => Err(Trouble::Bad(ScriptCause::Shape)),
    }
}

/// A text.
pub fn text_of(value: &Value) -> Result<&str, Trouble>
    ensures { GivesText result (text_in (view value.now)) }
{
    match value.as_str() {
        Some(text) => Ok(text),
        None => Err(Trouble::Bad(ScriptCause::Shape)),
    }
}

/// The bytes of hexadecimal digits.
pub fn bytes_of(alloc: Global, value: &Value) -> Result<Vec<u8>, Trouble>
    ensures { GivesItems result (hex_in (view value.now)) }
{
    let text = text_of(value)?;
    match hex::decode(alloc, text) {
        Ok(bytes) => Ok(bytes),
        Err(FromHexError::OutOfMemory) => Err(Trouble::Memory),
        Err(_) => Err(Trouble::Bad(ScriptCause::BadHex)),
    }
}

/// An Ethernet address, of 12 digits.
pub fn address_of(alloc: Global, value: &Value) -> Result<[u8; 6], Trouble>
    ensures { Gives result (address_in (view value.now)) }
{
    let bytes = bytes_of(alloc, value)?;
    let mut address = [0; 6];
    if bytes.len() != 6 {
        return Err(Trouble::Bad(ScriptCause::Range));
    }
    address.copy_from_slice(&bytes);
    Ok(address)
}

/// An object identifier, of 8 digits.
pub fn code_of(alloc: Global, value: &Value) -> Result<u32, Trouble>
    ensures { Gives result (code_in (view value.now)) }
{
    let bytes = bytes_of(alloc, value)?;
    let mut code = [0; 4];
    if bytes.len() != 4 {
        return Err(Trouble::Bad(ScriptCause::Range));
    }
    code.copy_from_slice(&bytes);
    Ok(u32::from_be_bytes(code))
}

/// The value of a request, of 0 to 16 digits.
pub fn value_of(alloc: Global, value: &Value) -> Result<OidValue, Trouble>
    ensures { Gives result (value_in (view value.now)) }
{
    let bytes = bytes_of(alloc, value)?;
    if bytes.len() <= 8 {
        Ok(OidValue::of(&bytes))
    } else {
        Err(Trouble::Bad(ScriptCause::Range))
    }
}

/// A frame of 14 to 1,518 bytes.
pub fn frame_of(alloc: Global, value: &Value) -> Result<Frame, Trouble>
    ensures { Gives result (frame_in (view value.now)) }
{
    let bytes = bytes_of(alloc, value)?;
    if 14 <= bytes.len() && bytes.len() <= 1518 {
        Ok(Frame::of(bytes))
    } else {
        Err(Trouble::Bad(ScriptCause::FrameLength))
    }
}

/// The values of a list of `low` to `high`.
pub fn items_of(value: &Value, low: usize, high: usize) -> Result<&[Value], Trouble>
    ensures { GivesViews result (list_in low high (view value.now)) }
{
    let Some(items) = value.as_array() else {
        return Err(Trouble::Bad(ScriptCause::Shape));
    };
    let values = items.as_slice();
    if low <= values.len() && values.len() <= high {
        Ok(values)
    } else {
        Err(Trouble::Bad(ScriptCause::TooMany))
    }
}

fn each_frame(alloc: Global, items: &[Value]) -> Result<Frames, Trouble>
    ensures { Gives result (read_all (λ before. frame_in) [] (map view items.now)) }
{
    let mut frames = Vec::new(alloc);
    for item in items {
        frames.push(frame_of(alloc, item)?)?;
    }
    Ok(Frames::of(frames))
}

/// 1 to 8 frames.
pub fn frames_of(alloc: Global, value: &Value) -> Result<Frames, Trouble>
    ensures { Gives result (frames_in (view value.now)) }
{
    each_frame(alloc, items_of(value, 1, 8)?)
}

fn are_digits(text: &[u8]) -> bool
    ensures { result ≡ list_all is_ascii_digit text.now }
{
    text.iter().all(|byte| byte.is_ascii_digit())
}

fn number_of_digits(digits: &str) -> Result<u64, Trouble>
    ensures { Gives result (filter_of_digits digits.now) }
{
    if !are_digits(digits.as_bytes()) || digits.is_empty() || digits.len() > 9 {
        return Err(Trouble::Bad(ScriptCause::Range));
    }
    match digits.parse::<u64>() {
        Ok(number) => Ok(number),
        Err(_) => Err(Trouble::Bad(ScriptCause::Range)),
    }
}

fn number_of_name(text: &str) -> Result<u64, Trouble>
    ensures { Gives result (filter_of_text text.now) }
{
    match text.strip_prefix("f") {
        Some(digits) => number_of_digits(digits),
        None => Err(Trouble::Bad(ScriptCause::Range)),
    }
}

/// The number of a filter: the letter f and 1 to 9 digits.
pub fn filter_number_of(value: &Value) -> Result<u64, Trouble>
    ensures { Gives result (filter_name_in (view value.now)) }
{
    number_of_name(text_of(value)?)
}
