//! Bytes from their hexadecimal digits, by a table.
ghost use Rattle.std.specs.Prelude.{◌≡◌, ◌*◌, ℕ, Ok, IfOk, OnOk, length, slice_index, unwrap_or};
ghost use Rattle.hex.specs.Hex.{decode_of, decode_pairs, hex_digit_value, pair_value};

use json_tokens::parts::Unread;
use std::alloc::Global;

/// The value of each byte as a hexadecimal digit, in either case, and 256 where it is none.
const VALUES: &[u16; 256] = &[
    256, 256, 256, 256, 256, 256, 256, 256, 256, 256, 256, 256, 256, 256, 256, 256, 256, 256, 256,
    256, 256, 256, 256, 256, 256, 256, 256, 256, 256, 256, 256, 256, 256, 256, 256, 256, 256, 256,
    256, 256, 256, 256, 256, 256, 256, 256, 256, 256, 0, 1, 2, 3, 4, 5, 6, 7, 8, 9, 256, 256, 256,
    256, 256, 256, 256, 10, 11, 12, 13, 14, 15, 256, 256, 256, 256, 256, 256, 256, 256, 256, 256,
    256, 256, 256, 256, 256, 256, 256, 256, 256, 256, 256, 256, 256, 256, 256, 256, 10, 11, 12, 13,
    14, 15, 256, 256, 256, 256, 256, 256, 256, 256, 256, 256, 256, 256, 256, 256, 256, 256, 256,
    256, 256, 256, 256, 256, 256, 256, 256, 256, 256, 256, 256, 256, 256, 256, 256, 256, 256, 256,
    256, 256, 256, 256, 256, 256, 256, 256, 256, 256, 256, 256, 256, 256, 256, 256, 256, 256, 256,
    256, 256, 256, 256, 256, 256, 256, 256, 256, 256, 256, 256, 256, 256, 256, 256, 256, 256, 256,
    256, 256, 256, 256, 256, 256, 256, 256, 256, 256, 256, 256, 256, 256, 256, 256, 256, 256, 256,
    256, 256, 256, 256, 256, 256, 256, 256, 256, 256, 256, 256, 256, 256, 256, 256, 256, 256, 256,
    256, 256, 256, 256, 256, 256, 256, 256, 256, 256, 256, 256, 256, 256, 256, 256, 256, 256, 256,
    256, 256, 256, 256, 256, 256, 256, 256, 256, 256, 256, 256, 256, 256, 256, 256, 256, 256, 256,
    256, 256, 256,
];

fn entry_of(values: &[u16; 256], digit: u8) -> u16
    ensures { result ≡ slice_index values.now digit }
{
    values[digit as usize]
}

fn value_of(digit: u8) -> u16
    ensures { result ≡ unwrap_or (hex_digit_value digit) 256 }
{
    entry_of(VALUES, digit)
}

fn byte_of(high: u8, low: u8) -> Result<u8, Unread>
    ensures { IfOk result (λ byte. (place : ℕ) → pair_value high low place ≡ Ok byte) }
{
    let byte = u32::from(value_of(high)) * 16 + u32::from(value_of(low));
    if byte < 256 {
        Ok(byte as u8)
    } else {
        Err(Unread)
    }
}

fn fill(digits: &[u8], bytes: &mut [u8]) -> Result<(), Unread>
    requires { length digits.now ≡ 2 * length bytes.old }
    ensures { OnOk result (decode_pairs 0 digits.now ≡ Ok bytes.new) }
{
    'bytes: for i in 0..bytes.len() {
        bytes[i] = byte_of(digits[2 * i], digits[2 * i + 1])?;
    }
    Ok(())
}

/// The bytes of hexadecimal digits, two for each byte.
pub fn decode(alloc: Global, digits: &str) -> Result<Vec<u8>, Unread>
    ensures { IfOk result (λ bytes. decode_of digits.now ≡ Ok bytes.items) }
{
    let digits = digits.as_bytes();
    if digits.len() % 2 != 0 {
        return Err(Unread);
    }
    let mut bytes = vec![in alloc; 0u8; digits.len() / 2]?;
    fill(digits, bytes.as_mut_slice())?;
    Ok(bytes)
}
