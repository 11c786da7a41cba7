//! The parts of a text, each read from the tokens that it begins with.
ghost use Rattle.std.specs.Prelude.{◌≡◌, ◌∷◌, ℕ, false, Some, None, IfOk, OnOk};
ghost use Rattle.json.specs.Json.{read_key};
ghost use Rattle.json.specs.Token.{begin_array as array_begun, begin_object as object_begun};
ghost use Rattle.serde_json.specs.Data.{boolean, number as number_data, string as text_data, unsigned};
ghost use Rattle.serde_json.specs.Read.{number_from, number_of};
ghost use Rattle.json_tokens.specs.Tokens.{IsValueAt, IsMemberAt};

use fast_float::Numeral;
use json::{Invalid, Reader, Token};
use std::alloc::{AllocError, AllocFailed};

/// The tokens aren't of the form that is read, or memory ran out. Another reader has to say which,
/// from the text's beginning.
#[derive(Clone, Copy, Debug, PartialEq, Eq)]
pub struct Unread;

impl From<AllocError> for Unread {
    fn from(_fault: AllocError) -> Unread {
        Unread
    }
}

impl<T: Drop> From<AllocFailed<T>> for Unread {
    fn from(_fault: AllocFailed<T>) -> Unread {
        Unread
    }
}

impl From<Invalid> for Unread {
    fn from(_fault: Invalid) -> Unread {
        Unread
    }
}

fn number_of_numeral(numeral: &Numeral<'_>) -> Result<u64, Unread>
    ensures { IfOk result (λ n. number_from false numeral.now ≡ Some (unsigned n)) }
{
    match numeral.to_u64() {
        Some(number) => Ok(number),
        None => Err(Unread),
    }
}

/// The whole number of 64 bits that a number's text is, without a sign.
pub fn whole_number(text: &str) -> Result<u64, Unread>
    ensures { IfOk result (λ n. number_of text.now ≡ Some (unsigned n)) }
{
    let digits = text.as_bytes();
    if digits.is_empty() || digits[0] == b'-' {
        return Err(Unread);
    }
    number_of_numeral(&Numeral::scan(digits))
}

/// Passes the bracket that opens an array.
pub fn begin_array(reader: &mut Reader<'_>) -> Result<(), Unread>
    ensures { OnOk result (reader.old ≡ array_begun ∷ reader.new) }
{
    match reader.next() {
        Some(Token::BeginArray) => Ok(()),
        _ => Err(Unread),
    }
}

/// Passes the brace that opens an object.
pub fn begin_object(reader: &mut Reader<'_>) -> Result<(), Unread>
    ensures { OnOk result (reader.old ≡ object_begun ∷ reader.new) }
{
    match reader.next() {
        Some(Token::BeginObject) => Ok(()),
        _ => Err(Unread),
    }
}

/// Passes the brace that closes an object.
pub fn end_object(reader: &mut Reader<'_>) -> Result<(), Unread>
    ensures { OnOk result (read_key reader.old ≡ Some (None, reader.new)) }
{
    match reader.next_key()? {
        None => Ok(()),
        Some(_) => Err(Unread),
    }
}

/// Passes the name of a member, where it is this one.
pub fn name(reader: &mut Reader<'_>, name: &str) -> Result<(), Unread>
    ensures { OnOk result (read_key reader.old ≡ Some (Some name.now, reader.new)) }
{
    match reader.next_key()? {
        Some(key) => { if key == name { Ok(()) } else { Err(Unread) } }
        None => Err(Unread),
    }
}

/// A whole number.
pub fn number(reader: &mut Reader<'_>) -> Result<u64, Unread>
    ensures { IfOk result (λ n. (depth : ℕ) → IsValueAt depth reader.old (number_data (unsigned n)) reader.new) }
{
    match reader.next() {
        Some(Token::Number(text)) => whole_number(text),
        _ => Err(Unread),
    }
}

/// A truth value.
pub fn truth(reader: &mut Reader<'_>) -> Result<bool, Unread>
    ensures { IfOk result (λ b. (depth : ℕ) → IsValueAt depth reader.old (boolean b) reader.new) }
{
    match reader.next() {
        Some(Token::Bool(truth)) => Ok(truth),
        _ => Err(Unread),
    }
}

/// A text.
pub fn text<'t>(reader: &mut Reader<'t>) -> Result<&'t str, Unread>
    ensures { IfOk result (λ s. (depth : ℕ) → IsValueAt depth reader.old (text_data s.now) reader.new) }
{
    match reader.next() {
        Some(Token::String(text)) => Ok(text),
        _ => Err(Unread),
    }
}

/// The whole number of a member of this name.
pub fn number_at(reader: &mut Reader<'_>, at: &str) -> Result<u64, Unread>
    ensures { IfOk result (λ n. (depth : ℕ) → IsMemberAt depth reader.old at.now (number_data (unsigned n)) reader.new) }
{
    name(reader, at)?;
    number(reader)
}
