//! The members of a script's objects, read by their names.
ghost use Rattle.std.specs.Prelude.{◌≡◌, ◌<◌, ◌≤◌, IfOk};
ghost use Rattle.serde_json.specs.View.{view};
ghost use Rattle.script_forms.specs.Results.{Gives, GivesText, GivesView, GivesViews};
ghost use Rattle.script_forms.specs.Values.{need, at, number_in, place_in, text_in, list_in, address_in, code_in, frames_in, filter_name_in};

use crate::parts::{
    Trouble, address_of, code_of, filter_number_of, frames_of, items_of, number_of, text_of,
};
use journal_types::Frames;
use script_types::ScriptCause;
use serde_json::Value;
use std::alloc::Global;

/// The member of this name. It is Shape where there is none.
pub fn member_of<'v>(value: &'v Value, name: &str) -> Result<&'v Value, Trouble>
    ensures { GivesView result (need name.now (view value.now)) }
{
    match value.get(name) {
        Some(member) => Ok(member),
        None => Err(Trouble::Bad(ScriptCause::Shape)),
    }
}

/// A whole number from `low` to `high`.
pub fn number_at(value: &Value, name: &str, low: u64, high: u64) -> Result<u64, Trouble>
    ensures gives { Gives result (at name.now (number_in low high) (view value.now)) }
    ensures within { IfOk result (λ n. n ≤ high) }
{
    number_of(member_of(value, name)?, low, high)
}

/// One of so many, counted from 0, and at most `high`.
pub fn place_at(value: &Value, name: &str, high: u64, count: usize) -> Result<u64, Trouble>
    ensures gives { Gives result (at name.now (place_in high count) (view value.now)) }
    ensures within { IfOk result (λ n. n ≤ high) }
    ensures below { IfOk result (λ n. n < count) }
{
    let place = number_of(member_of(value, name)?, 0, high)?;
    if place < count as u64 {
        Ok(place)
    } else {
        Err(Trouble::Bad(ScriptCause::Range))
    }
}

/// A text.
pub fn text_at<'v>(value: &'v Value, name: &str) -> Result<&'v str, Trouble>
    ensures { GivesText result (at name.now text_in (view value.now)) }
{
    text_of(member_of(value, name)?)
}

/// An Ethernet address.
pub fn address_at(alloc: Global, value: &Value, name: &str) -> Result<[u8; 6], Trouble>
    ensures { Gives result (at name.now address_in (view value.now)) }
{
    address_of(alloc, member_of(value, name)?)
}

/// An object identifier.
pub fn code_at(alloc: Global, value: &Value, name: &str) -> Result<u32, Trouble>
    ensures { Gives result (at name.now code_in (view value.now)) }
{
    code_of(alloc, member_of(value, name)?)
}

/// Frames.
pub fn frames_at(alloc: Global, value: &Value, name: &str) -> Result<Frames, Trouble>
    ensures { Gives result (at name.now frames_in (view value.now)) }
{
    frames_of(alloc, member_of(value, name)?)
}

/// The values of a list of `low` to `high`.
pub fn items_at<'v>(
    value: &'v Value,
    name: &str,
    low: usize,
    high: usize,
) -> Result<&'v [Value], Trouble>
    ensures { GivesViews result (at name.now (list_in low high) (view value.now)) }
{
    items_of(member_of(value, name)?, low, high)
}

/// The number of a filter.
pub fn filter_number_at(value: &Value, name: &str) -> Result<u64, Trouble>
    ensures { Gives result (at name.now filter_name_in (view value.now)) }
{
    filter_number_of(member_of(value, name)?)
}
