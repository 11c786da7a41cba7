//! Frame programs: what a filter does to a frame, as rules that act in order. Their meaning is in
//! specs/Apply.antt. VLAN tags are those of IEEE 802.1Q.
#![tactic(auto)]

ghost use Rattle.std.specs.Prelude.{◌≡◌};

use std::marker::Model;

/// What a rule asks of a frame. A frame is tagged where it has at least 18 bytes and its EtherType,
/// at offset 12, is 0x8100 (IEEE 802.1Q, the tag protocol identifier of a customer VLAN tag).
#[derive(Clone, Copy, PartialEq, Eq)]
pub enum Test {
    /// Always holds.
    Any,
    Tagged,
    Untagged,
    /// Bytes 0 to 5 are these.
    Dst([u8; 6]),
    /// Bytes 6 to 11 are these.
    Src([u8; 6]),
    /// Bytes 12 and 13, the most significant first, are this number.
    EtherType(u16),
    /// The frame is tagged, and the low 12 bits of the number at offset 14 are this.
    Vlan(u16),
    /// The frame has more bytes.
    Longer(u16),
    /// The frame has a byte at this offset, and it is this.
    Byte { at: u16, value: u8 },
}

/// What a rule does to a frame for which its test holds.
#[derive(Clone, Copy, PartialEq, Eq)]
pub enum Action {
    /// The frame is dropped.
    Drop,
    /// A tagged frame loses its tag, bytes 12 to 15.
    Pop,
    /// A tag with this tag control information is put in at offset 12; a frame that would grow past
    /// the limit is dropped.
    Push(u16),
    SetDst([u8; 6]),
    SetSrc([u8; 6]),
    /// The byte at this offset is replaced, where the frame has one there.
    SetByte { at: u16, value: u8 },
}

/// One rule of a program.
#[derive(Clone, Copy, PartialEq, Eq)]
pub struct Rule {
    pub test: Test,
    pub action: Action,
}

/// A program, seen as its rules in order.
#[derive(Drop)]
pub struct Program {
    rules: Vec<Rule>,
}

impl Model for Program {
    ghost use Rattle.std.specs.Prelude.{List};
    ghost use Rattle.program_types.specs.declared.Rule.{Rule};

    ghost Value = { List Rule };

    ghost view = { λ p. p.rules.items };
}

impl Program {
    /// The program of these rules. It takes no memory.
    pub fn of(rules: Vec<Rule>) -> Program
        ensures { result ≡ rules.items }
    {
        Program { rules }
    }

    pub fn rules(&self) -> &[Rule]
        ensures { result.now ≡ self.now }
    {
        self.rules.as_slice()
    }
}
