//! Scripts written as a whole.
ghost use Rattle.std.specs.Prelude.{◌≡◌, ◌≤◌, true, length, Ok, IfOk};
ghost use Rattle.serde_json.specs.View.{view};
ghost use Rattle.serde_json.specs.Written.{compact_text};
ghost use Rattle.script_forms.specs.Script.{Says};
ghost use Rattle.script_writing.specs.Limits.{is_script};
ghost use Rattle.script_writing.specs.Written.{script_data};

use crate::calls::call_values;
use crate::stacks::stack_values;
use ndis_base::OutOfMemory;
use script_types::Script;
use serde_json::{Value, json};
use std::alloc::Global;

fn script_value(alloc: Global, script: &Script) -> Result<Value, OutOfMemory>
    ensures { IfOk result (λ v. view v ≡ script_data script.now) }
{
    let calls = call_values(alloc, script.calls.items())?;
    let stacks = stack_values(alloc, script.stacks.items())?;
    Ok(json!(in alloc; {
        "calls": Value::Array(calls),
        "lanes": script.lanes,
        "stacks": Value::Array(stacks),
        "version": script.version
    })?)
}

/// The text of a script, as compact JSON. The text of a script within its limits says that script,
/// where it has at most 4,194,304 bytes, so that reading gives the script again.
pub fn write_script(alloc: Global, script: &Script) -> Result<Vec<u8>, OutOfMemory>
    ensures text { IfOk result (λ text. text.items ≡ compact_text (script_data script.now)) }
    ensures told { IfOk result (λ text. is_script script.now ≡ true → length text.items ≤ 4194304
        → Says text.items (Ok script.now)) }
{
    let value = script_value(alloc, script)?;
    Ok(value.to_vec(alloc)?)
}
