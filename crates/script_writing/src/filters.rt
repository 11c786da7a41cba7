//! Filters written as JSON.
ghost use Rattle.std.specs.Prelude.{◌≡◌, ◌++◌, map, string_bytes, IfOk};
ghost use Rattle.serde_json.specs.View.{view, members_view};
ghost use Rattle.program_forms.specs.Written.{program_data};
ghost use Rattle.script_forms.specs.Filter.{handlers_text};
ghost use Rattle.script_forms.specs.Filter as form;
ghost use Rattle.script_writing.specs.Written.{plain_filter_data, filter_data};

use crate::members::{object_with, with_member, with_text};
use journal_types::Setup;
use ndis_base::{FilterKind, Handlers, OutOfMemory, name_of_filter_kind};
use script_types::FilterSetup;
use serde_json::{Map, Value};
use std::alloc::{AllocError, Global};

fn letter_if(there: bool, letter: &'static str) -> &'static str
    ensures { result.now ≡ form.letter_if there letter.now }
{
    if there { letter } else { "" }
}

fn handlers_of(alloc: Global, handlers: Handlers) -> Result<String, AllocError>
    ensures { IfOk result (λ text. string_bytes text ≡ handlers_text handlers) }
{
    let send = letter_if(handlers.send, "s");
    let receive = letter_if(handlers.receive, "r");
    let oid = letter_if(handlers.oid, "o");
    let status = letter_if(handlers.status, "t");
    format!(in alloc; "{send}{receive}{oid}{status}")
}

// The members of a filter, but for its programs.
fn filter_members(
    alloc: Global,
    kind: FilterKind,
    setup: &Setup,
) -> Result<Map<String, Value>, AllocError>
    ensures { IfOk result (λ m. members_view m.entries ≡ plain_filter_data kind setup.now) }
{
    let handlers = handlers_of(alloc, setup.handlers)?;
    let handled = with_member(alloc, Map::new(alloc), "handlers", Value::from(handlers))?;
    let of_kind = with_text(alloc, handled, "kind", name_of_filter_kind(kind))?;
    with_member(alloc, of_kind, "pool", Value::from(setup.pool))
}

// The filter, with its programs as JSON.
fn filter_object(
    alloc: Global,
    kind: FilterKind,
    setup: &Setup,
    receive: Value,
    send: Value,
) -> Result<Value, AllocError>
    requires receives { view receive ≡ program_data setup.now.receive }
    requires sends { view send ≡ program_data setup.now.send }
    ensures { IfOk result (λ v. view v ≡ filter_data kind setup.now) }
{
    let members = filter_members(alloc, kind, setup)?;
    let receiving = with_member(alloc, members, "receive", receive)?;
    object_with(alloc, receiving, "send", send)
}

pub fn filter_value(alloc: Global, kind: FilterKind, setup: &Setup) -> Result<Value, OutOfMemory>
    ensures { IfOk result (λ v. view v ≡ filter_data kind setup.now) }
{
    let receive = program_forms::write(alloc, &setup.receive)?;
    let send = program_forms::write(alloc, &setup.send)?;
    Ok(filter_object(alloc, kind, setup, receive, send)?)
}

pub fn filter_values(alloc: Global, filters: &[FilterSetup]) -> Result<Vec<Value>, OutOfMemory>
    ensures { IfOk result (λ v. map view v.items ≡ map (λ f. filter_data f.kind f.setup) filters.now) }
{
    let mut values = Vec::new(alloc);
    for filter in filters {
        values.push(filter_value(alloc, filter.kind, &filter.setup)?)?;
    }
    Ok(values)
}
