//! Text that is being written, word by word.
ghost use Rattle.std.specs.Prelude.{◌≡◌, ◌*◌, ◌/◌, ◌%◌, ◌+◌, ◌<◌, ◌≤◌, ◌++◌, [], OnOk, IfOk, codes, decimal, false, length, if◌then◌else◌};
ghost use Rattle.std.specs.Fmt.{digit_glyph};
ghost use Rattle.journal_words.specs.Words.{word, hex_text, value_text, code_text, frames_text, more_frames_text, optional_text, filter_text, binding_text, module_text, target_text, handlers_text};
ghost use Rattle.journal_words.specs.Digits.{four_last};

use itoa::Buffer;
use journal_types::{Frames, Target};
use ndis_base::{Frame, Handlers, ModuleId, OutOfMemory};
use std::alloc::Global;
use std::marker::Model;

/// So many bytes are turned into hexadecimal at once.
const BLOCK: usize = 64;

const DIGITS: usize = 128;

/// The last digit of a number in decimal.
#[inline(always)]
fn last_digit(number: u64) -> u8
    ensures { result ≡ 48 + number % 10 }
{
    b'0' + (number % 10) as u8
}

#[inline(always)]
fn digit_of(number: u8) -> u8
    requires { number < 16 }
    ensures { result ≡ digit_glyph false number }
{
    if number < 10 {
        b'0' + number
    } else {
        b'a' - 10 + number
    }
}

/// Writes bytes in hexadecimal over a text of just that length.
#[inline(always)]
fn write_hex(text: &mut [u8], bytes: &[u8])
    requires { length text.old ≡ 2 * length bytes.now }
    ensures { text.new ≡ hex_text bytes.now }
{
    for (i, byte) in bytes.iter().enumerate() {
        text[2 * i] = digit_of(*byte / 16);
        text[2 * i + 1] = digit_of(*byte % 16);
    }
}

/// A page of text, seen as its bytes, that is emptied and used again once it is written elsewhere.
/// Where memory runs out while words are added, the page has a part of them behind what it had.
#[derive(Drop)]
pub struct Page {
    bytes: Vec<u8>,
}

impl Model for Page {
    ghost use Rattle.std.specs.Prelude.{List, ℕ};

    ghost Value = { List ℕ };

    ghost view = { λ p. p.bytes.items };
}

impl Page {
    /// An empty page. It takes no memory.
    pub fn empty(alloc: Global) -> Page
        ensures { result ≡ [] }
    {
        Page {
            bytes: Vec::new(alloc),
        }
    }

    /// An empty page with room for so many bytes, which takes no more memory until it has them.
    pub fn with_room(alloc: Global, room: usize) -> Result<Page, OutOfMemory>
        ensures { IfOk result (λ p. p ≡ []) }
    {
        let bytes = Vec::with_capacity(alloc, room)?;
        Ok(Page { bytes })
    }

    pub fn bytes(&self) -> &[u8]
        ensures { result.now ≡ self.now }
    {
        self.bytes.as_slice()
    }

    /// Takes all text from the page, which keeps its memory.
    pub fn clear(&mut self)
        ensures { self.new ≡ [] }
    {
        self.bytes.clear();
    }

    /// Adds a text as it is.
    pub fn text(&mut self, text: &str) -> Result<(), OutOfMemory>
        ensures { OnOk result (self.new ≡ self.old ++ text.now) }
    {
        self.bytes.extend_from_slice(text.as_bytes())?;
        Ok(())
    }

    #[tactic(auto, using(crate::proofs::Decimals::one_digit))]
    fn one_digit(&mut self, number: u64) -> Result<(), OutOfMemory>
        requires { number < 10 }
        ensures { OnOk result (self.new ≡ self.old ++ decimal number) }
    {
        self.bytes.extend_from_slice(&[last_digit(number)])?;
        Ok(())
    }

    #[tactic(auto, using(crate::proofs::Decimals::two_digits))]
    fn two_digits(&mut self, number: u64) -> Result<(), OutOfMemory>
        requires small { number < 100 }
        requires large { 10 ≤ number }
        ensures { OnOk result (self.new ≡ self.old ++ decimal number) }
    {
        self.bytes
            .extend_from_slice(&[last_digit(number / 10), last_digit(number)])?;
        Ok(())
    }

    #[tactic(auto, using(crate::proofs::Decimals::three_digits))]
    fn three_digits(&mut self, number: u64) -> Result<(), OutOfMemory>
        requires small { number < 1000 }
        requires large { 100 ≤ number }
        ensures { OnOk result (self.new ≡ self.old ++ decimal number) }
    {
        self.bytes.extend_from_slice(&[
            last_digit(number / 100),
            last_digit(number / 10),
            last_digit(number),
        ])?;
        Ok(())
    }

    /// Adds the last four digits of a number.
    fn four_digits(&mut self, number: u64) -> Result<(), OutOfMemory>
        ensures { OnOk result (self.new ≡ self.old ++ four_last number) }
    {
        self.bytes.extend_from_slice(&[
            last_digit(number / 1000),
            last_digit(number / 100),
            last_digit(number / 10),
            last_digit(number),
        ])?;
        Ok(())
    }

    #[tactic(auto, using(crate::proofs::Decimals::four_digits))]
    fn few_digits(&mut self, number: u64) -> Result<(), OutOfMemory>
        requires { number < 10000 }
        ensures { OnOk result (self.new ≡ self.old ++ decimal number) }
    {
        if number < 10 {
            self.one_digit(number)
        } else if number < 100 {
            self.two_digits(number)
        } else if number < 1000 {
            self.three_digits(number)
        } else {
            self.four_digits(number)
        }
    }

    fn many_digits(&mut self, number: u64) -> Result<(), OutOfMemory>
        ensures { OnOk result (self.new ≡ self.old ++ decimal number) }
    {
        let mut digits = Buffer::new();
        self.text(digits.format(number))
    }

    /// Adds a number in decimal.
    pub fn digits(&mut self, number: u64) -> Result<(), OutOfMemory>
        ensures { OnOk result (self.new ≡ self.old ++ decimal number) }
    {
        if number < 10_000 {
            return self.few_digits(number);
        }
        if number < 100_000_000 {
            self.few_digits(number / 10_000)?;
            return self.four_digits(number);
        }
        self.many_digits(number)
    }

    fn hex_block(&mut self, bytes: &[u8]) -> Result<(), OutOfMemory>
        requires { length bytes.now ≤ 64 }
        ensures { OnOk result (self.new ≡ self.old ++ hex_text bytes.now) }
    {
        let mut digits = [0; DIGITS];
        let text = &mut digits[..2 * bytes.len()];
        write_hex(text, bytes);
        self.bytes.extend_from_slice(text)?;
        Ok(())
    }

    /// Adds bytes in hexadecimal.
    pub fn hex(&mut self, bytes: &[u8]) -> Result<(), OutOfMemory>
        ensures { OnOk result (self.new ≡ self.old ++ hex_text bytes.now) }
    {
        let mut rest = bytes;
        while !rest.is_empty() {
            let (block, more) = rest.split_at(rest.len().min(BLOCK));
            self.hex_block(block)?;
            rest = more;
        }
        Ok(())
    }

    /// Adds a space and a word.
    pub fn word(&mut self, text: &str) -> Result<(), OutOfMemory>
        ensures { OnOk result (self.new ≡ word self.old text.now) }
    {
        self.text(" ")?;
        self.text(text)
    }

    pub fn number(&mut self, number: u64) -> Result<(), OutOfMemory>
        ensures { OnOk result (self.new ≡ word self.old (decimal number)) }
    {
        self.text(" ")?;
        self.digits(number)
    }

    pub fn optional_number(&mut self, number: Option<u32>) -> Result<(), OutOfMemory>
        ensures { OnOk result (self.new ≡ word self.old (optional_text number)) }
    {
        match number {
            None => self.text(" -"),
            Some(number) => self.number(u64::from(number)),
        }
    }

    pub fn filter(&mut self, number: u64) -> Result<(), OutOfMemory>
        ensures { OnOk result (self.new ≡ word self.old (filter_text number)) }
    {
        self.text(" f")?;
        self.digits(number)
    }

    pub fn binding(&mut self, number: u32) -> Result<(), OutOfMemory>
        ensures { OnOk result (self.new ≡ word self.old (binding_text number)) }
    {
        self.text(" b")?;
        self.digits(u64::from(number))
    }

    pub fn module(&mut self, module_id: ModuleId) -> Result<(), OutOfMemory>
        ensures { OnOk result (self.new ≡ word self.old (module_text module_id)) }
    {
        match module_id {
            ModuleId::Miniport => self.text(" m"),
            ModuleId::Filter(number) => self.filter(number),
            ModuleId::Binding(number) => self.binding(number),
        }
    }

    pub fn target(&mut self, target: Target) -> Result<(), OutOfMemory>
        ensures { OnOk result (self.new ≡ word self.old (target_text target)) }
    {
        match target {
            Target::Module(module_id) => self.module(module_id),
            Target::Bindings => self.text(" b"),
        }
    }

    pub fn address(&mut self, address: &[u8; 6]) -> Result<(), OutOfMemory>
        ensures { OnOk result (self.new ≡ word self.old (hex_text address.now)) }
    {
        self.text(" ")?;
        self.hex(address)
    }

    #[tactic(auto, unfolding(crate::specs::Words::code_text))]
    pub fn code(&mut self, code: u32) -> Result<(), OutOfMemory>
        ensures { OnOk result (self.new ≡ word self.old (code_text code)) }
    {
        let bytes = [
            (code / 16_777_216) as u8,
            (code / 65_536 % 256) as u8,
            (code / 256 % 256) as u8,
            (code % 256) as u8,
        ];
        self.text(" ")?;
        self.hex(&bytes)
    }

    /// Adds the bytes of an OID value, or a dash where there is none.
    pub fn value(&mut self, value: &[u8]) -> Result<(), OutOfMemory>
        ensures { OnOk result (self.new ≡ word self.old (value_text value.now)) }
    {
        if value.is_empty() {
            return self.word("-");
        }
        self.text(" ")?;
        self.hex(value)
    }

    fn more_frames(&mut self, frames: &[Frame]) -> Result<(), OutOfMemory>
        ensures { OnOk result (self.new ≡ self.old ++ more_frames_text frames.now) }
    {
        for frame in frames {
            self.text("/")?;
            self.hex(frame.bytes())?;
        }
        Ok(())
    }

    pub fn frames(&mut self, frames: &Frames) -> Result<(), OutOfMemory>
        ensures { OnOk result (self.new ≡ word self.old (frames_text frames.now)) }
    {
        match frames.items() {
            [] => self.word("-"),
            [first, more @ ..] => {
                self.text(" ")?;
                self.hex(first.bytes())?;
                self.more_frames(more)
            }
        }
    }

    fn letter(&mut self, letter: &str, is_there: bool) -> Result<(), OutOfMemory>
        ensures { OnOk result (self.new ≡ self.old ++ (if is_there then letter.now else [])) }
    {
        if is_there { self.text(letter) } else { Ok(()) }
    }

    pub fn handlers(&mut self, handlers: Handlers) -> Result<(), OutOfMemory>
        ensures { OnOk result (self.new ≡ word self.old (handlers_text handlers)) }
    {
        if !(handlers.send || handlers.receive || handlers.oid || handlers.status) {
            return self.word("-");
        }
        self.text(" ")?;
        self.letter("s", handlers.send)?;
        self.letter("r", handlers.receive)?;
        self.letter("o", handlers.oid)?;
        self.letter("t", handlers.status)
    }
}
