//! Filters read from JSON.
ghost use Rattle.std.specs.Prelude.{◌≡◌, [], map, option_map};
ghost use Rattle.serde_json.specs.View.{view};
ghost use Rattle.json_forms.specs.Lists.{read_all};
ghost use Rattle.script_forms.specs.Filter.{filter_kind_in, letter_off, handlers_of_text, handlers_in, program_or_empty, filter_in};
ghost use Rattle.script_forms.specs.Results.{Gives};

use frame_rules::{Program, RuleFault, read};
use journal_types::Setup;
use ndis_base::{FilterKind, Handlers, filter_kind_of_name};
use script_forms::members::{member_of, number_at};
use script_forms::parts::{Trouble, check_members, text_of};
use script_types::{FilterSetup, FilterSetups, ScriptCause};
use serde_json::Value;
use std::alloc::Global;

fn filter_kind_of(value: &Value) -> Result<FilterKind, Trouble>
    ensures { Gives result (filter_kind_in (view value.now)) }
{
    match filter_kind_of_name(text_of(value)?) {
        Some(kind) => Ok(kind),
        None => Err(Trouble::Bad(ScriptCause::Range)),
    }
}

// Whether a letter stands in front of a text, and the text without it.
fn take_letter(letter: u8, text: &[u8]) -> (bool, &[u8])
    ensures there { result.0 ≡ (letter_off letter text.now).0 }
    ensures rest { result.1.now ≡ (letter_off letter text.now).1 }
{
    if !text.is_empty() && text[0] == letter {
        (true, &text[1..])
    } else {
        (false, text)
    }
}

fn handlers_of_letters(text: &[u8]) -> Result<Handlers, Trouble>
    ensures { Gives result (handlers_of_text text.now) }
{
    let (send, rest) = take_letter(b's', text);
    let (receive, rest) = take_letter(b'r', rest);
    let (oid, rest) = take_letter(b'o', rest);
    let (status, rest) = take_letter(b't', rest);
    if rest.is_empty() {
        Ok(Handlers {
            send,
            receive,
            oid,
            status,
        })
    } else {
        Err(Trouble::Bad(ScriptCause::Range))
    }
}

fn handlers_of(value: &Value) -> Result<Handlers, Trouble>
    ensures { Gives result (handlers_in (view value.now)) }
{
    handlers_of_letters(text_of(value)?.as_bytes())
}

// A program, or the empty one where it is left out.
fn program_of(alloc: Global, member: Option<&Value>) -> Result<Program, Trouble>
    ensures { Gives result (program_or_empty (option_map (λ v. view v.now) member.entry)) }
{
    let Some(value) = member else {
        return Ok(Program::of(Vec::new(alloc)));
    };
    match read(alloc, value) {
        Ok(program) => Ok(program),
        Err(RuleFault::BadRule(_)) => Err(Trouble::Bad(ScriptCause::BadRule)),
        Err(RuleFault::TooMany) => Err(Trouble::Bad(ScriptCause::TooMany)),
        Err(RuleFault::Memory) => Err(Trouble::Memory),
    }
}

pub fn filter_of(alloc: Global, value: &Value) -> Result<FilterSetup, Trouble>
    ensures { Gives result (filter_in (view value.now)) }
{
    check_members(value, &["kind", "handlers", "pool"], &["send", "receive"])?;
    let kind = filter_kind_of(member_of(value, "kind")?)?;
    let handlers = handlers_of(member_of(value, "handlers")?)?;
    let pool = number_at(value, "pool", 1, 256)? as usize;
    let send = program_of(alloc, value.get("send"))?;
    let receive = program_of(alloc, value.get("receive"))?;
    Ok(FilterSetup {
        kind,
        setup: Setup {
            handlers,
            pool,
            send,
            receive,
        },
    })
}

/// The filters of a list.
pub fn each_filter(alloc: Global, items: &[Value]) -> Result<FilterSetups, Trouble>
    ensures { Gives result (read_all (λ earlier. filter_in) [] (map view items.now)) }
{
    let mut filters = Vec::new(alloc);
    for item in items {
        filters.push(filter_of(alloc, item)?)?;
    }
    Ok(FilterSetups::of(filters))
}
