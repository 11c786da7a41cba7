//! What a script is made of: the stacks that it sets up, and the calls that its lanes make.
#![tactic(auto)]

ghost use Rattle.std.specs.Prelude.{◌≡◌};

use journal_types::{BindingSetups, Frames, PortSetup, Setup, Way};
use ndis_base::{FilterKind, LaneNo, ListNo, MiniportKind, OidKind, OidValue, StatusName};
use std::fmt;
use std::marker::Model;
use thiserror::Error;

/// A script: its version (1), how many lanes make its calls (1 to 8), its stacks (1 to 4) and its
/// calls (0 to 16,384).
#[derive(Drop)]
pub struct Script {
    pub version: u8,
    pub lanes: u8,
    pub stacks: Stacks,
    pub calls: Calls,
}

/// The stacks of a script, in order, seen as a list.
#[derive(Drop)]
pub struct Stacks {
    items: Vec<StackSetup>,
}

impl Model for Stacks {
    ghost use Rattle.std.specs.Prelude.{List};
    ghost use Rattle.script_types.specs.declared.StackSetup.{StackSetup};

    ghost Value = { List StackSetup };

    ghost view = { λ s. s.items.items };
}

impl Stacks {
    pub fn of(items: Vec<StackSetup>) -> Stacks
        ensures { result ≡ items.items }
    {
        Stacks { items }
    }

    pub fn items(&self) -> &[StackSetup]
        ensures { result.now ≡ self.now }
    {
        self.items.as_slice()
    }
}

/// One stack: its miniport, its bindings (1 to 8), and its first filters (0 to 16) from top to
/// bottom.
#[derive(Drop)]
pub struct StackSetup {
    pub miniport: MiniportSetup,
    pub bindings: BindingSetups,
    pub filters: FilterSetups,
}

/// A miniport: its kind and its set-up, and for a virtual miniport the stack below and the mux
/// binding there that it stands on.
#[derive(Clone, Copy, PartialEq, Eq)]
pub struct MiniportSetup {
    pub kind: MiniportKind,
    pub port: PortSetup,
    pub link: Option<(u8, u32)>,
}

/// The filters that a stack begins with, from top to bottom, seen as a list.
#[derive(Drop)]
pub struct FilterSetups {
    items: Vec<FilterSetup>,
}

impl Model for FilterSetups {
    ghost use Rattle.std.specs.Prelude.{List};
    ghost use Rattle.script_types.specs.declared.FilterSetup.{FilterSetup};

    ghost Value = { List FilterSetup };

    ghost view = { λ f. f.items.items };
}

impl FilterSetups {
    pub fn of(items: Vec<FilterSetup>) -> FilterSetups
        ensures { result ≡ items.items }
    {
        FilterSetups { items }
    }

    pub fn items(&self) -> &[FilterSetup]
        ensures { result.now ≡ self.now }
    {
        self.items.as_slice()
    }
}

/// A filter: its kind and its set-up.
#[derive(Drop)]
pub struct FilterSetup {
    pub kind: FilterKind,
    pub setup: Setup,
}

/// The calls of a script, in order, seen as a list.
#[derive(Drop)]
pub struct Calls {
    items: Vec<Call>,
}

impl Model for Calls {
    ghost use Rattle.std.specs.Prelude.{List};
    ghost use Rattle.script_types.specs.declared.Call.{Call};

    ghost Value = { List Call };

    ghost view = { λ c. c.items.items };
}

impl Calls {
    pub fn of(items: Vec<Call>) -> Calls
        ensures { result ≡ items.items }
    {
        Calls { items }
    }

    pub fn items(&self) -> &[Call]
        ensures { result.now ≡ self.now }
    {
        self.items.as_slice()
    }
}

/// One call: the lane that makes it (below the script's lanes), the stack that it is made on (below
/// the script's stacks), whether its tail follows, and what it asks.
#[derive(Drop)]
pub struct Call {
    pub lane: LaneNo,
    pub stack: u8,
    pub pump: bool,
    pub kind: CallKind,
}

/// What a call asks of its stack.
#[derive(Drop)]
pub enum CallKind {
    /// A cancel identifier is 1 to 4294967295. There are 1 to 8 frames of 14 to 1,518 bytes.
    Send {
        binding: u32,
        cancel: Option<u32>,
        frames: Frames,
    },
    Indicate {
        frames: Frames,
    },
    Lend {
        frames: Frames,
    },
    /// The list is 1 to 2^60.
    GiveBack {
        binding: u32,
        list: ListNo,
    },
    /// 1 to 4294967295.
    Cancel {
        id: u32,
    },
    Ask {
        binding: u32,
        kind: OidKind,
        code: u32,
        value: OidValue,
    },
    Status {
        name: StatusName,
    },
    Transmit,
    Pump,
    Drain,
    BeginPause,
    PauseNext,
    RestartNext,
    Insert {
        position: u8,
        kind: FilterKind,
        setup: Setup,
    },
    /// The filter is 0 to 999,999,999.
    Remove {
        filter: u64,
    },
    Replace {
        filter: u64,
        kind: FilterKind,
        setup: Setup,
    },
    /// A message crosses between this stack, whose miniport is virtual, and the stack below it.
    Relay {
        way: Way,
    },
}

/// Where a script is faulty. Stacks and calls are counted from 0.
#[derive(Clone, Copy, Debug, PartialEq, Eq)]
pub enum ScriptPlace {
    Whole,
    Stack(usize),
    Call(usize),
}

impl fmt::Display for ScriptPlace {
    fn fmt<W: fmt::Write>(&self, f: &mut fmt::Formatter<W>) -> fmt::Result {
        match self {
            ScriptPlace::Whole => write!(f, "whole"),
            ScriptPlace::Stack(stack) => write!(f, "stack {stack}"),
            ScriptPlace::Call(call) => write!(f, "call {call}"),
        }
    }
}

/// What is wrong with a script.
#[derive(Clone, Copy, Debug, PartialEq, Eq, Error)]
pub enum ScriptCause {
    /// It has more than 4,194,304 bytes.
    #[error("TooLong")]
    TooLong,
    /// It is no JSON value.
    #[error("NotJson")]
    NotJson,
    /// A member is missing, unknown or of another JSON kind, or a number is no whole number of 64
    /// bits.
    #[error("Shape")]
    Shape,
    /// A list is longer than its limit, or shorter than 1 where 1 is least.
    #[error("TooMany")]
    TooMany,
    /// A number, a name or handler letters aren't among the permitted ones, a text of fixed length
    /// has another length, or a lane, stack or binding doesn't exist.
    #[error("Range")]
    Range,
    /// A hexadecimal text has an odd length or another character.
    #[error("BadHex")]
    BadHex,
    /// A frame has fewer than 14 or more than 1,518 bytes.
    #[error("FrameLength")]
    FrameLength,
    /// A program isn't of the form of frame programs.
    #[error("BadRule")]
    BadRule,
    /// A virtual miniport stands on no mux binding of an earlier stack, or where an earlier one
    /// stands with the same VLAN, or a relay names a stack whose miniport isn't virtual.
    #[error("BadLink")]
    BadLink,
    /// Two lanes pause, restart or rewire one stack.
    #[error("TwoRewirers")]
    TwoRewirers,
    /// The script is right, but asks for what can't be run yet. Reading never answers it.
    #[error("NotBuilt")]
    NotBuilt,
}

/// Why a script was not read.
#[derive(Clone, Copy, Debug, PartialEq, Eq, Error)]
pub enum ScriptFault {
    #[error("bad script at {place}: {cause}")]
    Bad {
        place: ScriptPlace,
        cause: ScriptCause,
    },
    #[error("out of memory")]
    Memory,
}
