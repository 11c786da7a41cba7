//! A value, or the rest of an object, as a tree.
ghost use Rattle.std.specs.Prelude.{◌≡◌, ◌<◌, IfOk, length, map};
ghost use Rattle.serde_json.specs.View.{view, members_view};
ghost use Rattle.json_tokens.specs.Tokens.{IsValueAt, AreItemsAt, AreMembersAt};

use crate::parts::{Unread, whole_number};
use json::{Reader, Token};
use serde_json::{Map, Value};
use std::alloc::Global;

/// The value that stands first, with arrays and objects nested no deeper than `depth`, and numbers
/// that are whole and have no sign.
#[cycle(read)]
pub fn read_value(alloc: Global, reader: &mut Reader<'_>, depth: usize) -> Result<Value, Unread>
    ensures { IfOk result (λ v. IsValueAt depth reader.old (view v) reader.new) }
{
    let token = reader.next().ok_or(Unread)?;
    match token {
        Token::String(text) => Ok(Value::String(String::from_str(alloc, text)?)),
        Token::Number(text) => Ok(Value::from(whole_number(text)?)),
        Token::Bool(truth) => Ok(Value::Bool(truth)),
        Token::Null => Ok(Value::Null),
        Token::EndObject | Token::EndArray | Token::Key(_) | Token::Bad => Err(Unread),
        Token::BeginArray => {
            if depth == 0 {
                return Err(Unread);
            }
            Ok(Value::Array(read_items(alloc, reader, depth - 1)?))
        }
        Token::BeginObject => {
            if depth == 0 {
                return Err(Unread);
            }
            Ok(Value::Object(read_members(alloc, reader, depth - 1, Map::new(alloc))?))
        }
    }
}

#[cycle(read)]
fn read_items(alloc: Global, reader: &mut Reader<'_>, depth: usize) -> Result<Vec<Value>, Unread>
    ensures { IfOk result (λ vs. AreItemsAt depth reader.old (map view vs.items) reader.new) }
{
    let mut found = Vec::new(alloc);
    'items: while !reader.take_end_array() {
        let item = read_value(alloc, reader, depth)?;
        found.push(item)?;
    }
    Ok(found)
}

/// The members of an object up to its end, beside those found before. Of two members of one name the
/// last counts.
#[cycle(read)]
pub fn read_members(
    alloc: Global,
    reader: &mut Reader<'_>,
    depth: usize,
    mut found: Map<String, Value>,
) -> Result<Map<String, Value>, Unread>
    ensures { IfOk result (λ m. AreMembersAt depth (members_view found.entries) reader.old (members_view m.entries) reader.new) }
{
    'members: while let Some(name) = reader.next_key()? {
        let key = String::from_str(alloc, name)?;
        let member = read_value(alloc, reader, depth)?;
        drop(found.insert(key, member)?);
    }
    Ok(found)
}
