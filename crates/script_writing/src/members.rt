//! Members of objects.
ghost use Rattle.std.specs.Prelude.{◌≡◌, IfOk};
ghost use Rattle.serde_json.specs.Data.{string, object, put as with_data};
ghost use Rattle.serde_json.specs.View.{view, members_view};
ghost use Rattle.program_forms.specs.Written.{hex_data};

use serde_json::{Map, Value};
use std::alloc::{AllocError, Global};

pub fn with_member(
    alloc: Global,
    members: Map<String, Value>,
    name: &str,
    value: Value,
) -> Result<Map<String, Value>, AllocError>
    ensures { IfOk result (λ more. members_view more.entries ≡ with_data name.now (view value) (members_view members.entries)) }
{
    let mut more = members;
    serde_json::put(&mut more, alloc, name, value)?;
    Ok(more)
}

pub fn with_text(
    alloc: Global,
    members: Map<String, Value>,
    name: &str,
    text: &str,
) -> Result<Map<String, Value>, AllocError>
    ensures { IfOk result (λ more. members_view more.entries ≡ with_data name.now (string text.now) (members_view members.entries)) }
{
    with_member(alloc, members, name, Value::try_from_str(alloc, text)?)
}

pub fn with_hex(
    alloc: Global,
    members: Map<String, Value>,
    name: &str,
    bytes: &[u8],
) -> Result<Map<String, Value>, AllocError>
    ensures { IfOk result (λ more. members_view more.entries ≡ with_data name.now (hex_data bytes.now) (members_view members.entries)) }
{
    let digits = hex::encode(alloc, bytes)?;
    with_member(alloc, members, name, Value::from(digits))
}

pub fn object_with(
    alloc: Global,
    members: Map<String, Value>,
    name: &str,
    value: Value,
) -> Result<Value, AllocError>
    ensures { IfOk result (λ v. view v ≡ object (with_data name.now (view value) (members_view members.entries))) }
{
    Ok(Value::from(with_member(alloc, members, name, value)?))
}
