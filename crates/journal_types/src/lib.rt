//! What a journal is made of: the fixed part of a stack, events, replies, rows and turns.
#![tactic(auto)]

ghost use Rattle.std.specs.Prelude.{◌≡◌};

use ndis_base::{
    ConfigNo, CrossNo, Direction, FilterKind, Frame, Handlers, ListNo, ListStatus, MiniportKind,
    ModuleId, ModuleState, OidKind, OidNo, OidStatus, OidValue, Origin, Phase, ProtocolKind,
    StatusName, StatusNo, Who,
};
use program_types::Program;
use std::marker::Model;

/// The frames of a buffer list, seen as a list of frames.
#[derive(Drop)]
pub struct Frames {
    items: Vec<Frame>,
}

impl Model for Frames {
    ghost use Rattle.std.specs.Prelude.{List, ℕ};

    ghost Value = { List (List ℕ) };

    ghost view = { λ f. f.items.items };
}

impl Frames {
    pub fn of(items: Vec<Frame>) -> Frames
        ensures { result ≡ items.items }
    {
        Frames { items }
    }

    pub fn items(&self) -> &[Frame]
        ensures { result.now ≡ self.now }
    {
        self.items.as_slice()
    }
}

/// The filters of a configuration by their numbers, from top to bottom.
#[derive(Drop)]
pub struct FilterList {
    items: Vec<u64>,
}

impl Model for FilterList {
    ghost use Rattle.std.specs.Prelude.{List, ℕ};

    ghost Value = { List ℕ };

    ghost view = { λ f. f.items.items };
}

impl FilterList {
    pub fn of(items: Vec<u64>) -> FilterList
        ensures { result ≡ items.items }
    {
        FilterList { items }
    }

    pub fn items(&self) -> &[u64]
        ensures { result.now ≡ self.now }
    {
        self.items.as_slice()
    }
}

/// How a filter is set up: its handlers, the lists in its pool (1 to 256), and its two programs.
#[derive(Drop)]
pub struct Setup {
    pub handlers: Handlers,
    pub pool: usize,
    pub send: Program,
    pub receive: Program,
}

/// How a miniport is set up: its Ethernet address, the lists that its transmit ring holds and those
/// in its pool (each 1 to 256), and the VLAN of a virtual miniport (1 to 4094).
#[derive(Clone, Copy, PartialEq, Eq)]
pub struct PortSetup {
    pub address: [u8; 6],
    pub ring: usize,
    pub pool: usize,
    pub vlan: Option<u16>,
}

/// The bindings of a stack, in order: the kind of each and the lists in its pool (1 to 256).
#[derive(Drop)]
pub struct BindingSetups {
    items: Vec<(ProtocolKind, usize)>,
}

impl Model for BindingSetups {
    ghost use Rattle.std.specs.Prelude.{List, ℕ};
    ghost use Rattle.ndis_base.specs.declared.ProtocolKind.{ProtocolKind};

    ghost Value = { List (ProtocolKind × ℕ) };

    ghost view = { λ b. b.items.items };
}

impl BindingSetups {
    pub fn of(items: Vec<(ProtocolKind, usize)>) -> BindingSetups
        ensures { result ≡ items.items }
    {
        BindingSetups { items }
    }

    pub fn items(&self) -> &[(ProtocolKind, usize)]
        ensures { result.now ≡ self.now }
    {
        self.items.as_slice()
    }
}

/// The virtual miniports above a stack: the stack of each, the binding here that it stands on, and
/// its VLAN.
#[derive(Drop)]
pub struct UpperLinks {
    items: Vec<(u8, u32, u16)>,
}

impl Model for UpperLinks {
    ghost use Rattle.std.specs.Prelude.{List, ℕ};

    ghost Value = { List (ℕ × ℕ × ℕ) };

    ghost view = { λ u. u.items.items };
}

impl UpperLinks {
    pub fn of(items: Vec<(u8, u32, u16)>) -> UpperLinks
        ensures { result ≡ items.items }
    {
        UpperLinks { items }
    }

    pub fn items(&self) -> &[(u8, u32, u16)]
        ensures { result.now ≡ self.now }
    {
        self.items.as_slice()
    }
}

/// The fixed part of a stack: its number, its miniport, for a virtual miniport the stack below and
/// the binding there, its bindings, and the virtual miniports above it.
#[derive(Drop)]
pub struct StackHead {
    pub stack: u8,
    pub kind: MiniportKind,
    pub port: PortSetup,
    pub link: Option<(u8, u32)>,
    pub bindings: BindingSetups,
    pub uppers: UpperLinks,
}

/// Where something on its way goes: to a module, or to the bindings together.
#[derive(Clone, Copy, PartialEq, Eq)]
pub enum Target {
    Module(ModuleId),
    Bindings,
}

/// A driver's call on a buffer list (WDK: FilterSendNetBufferLists,
/// FilterSendNetBufferListsComplete, FilterReceiveNetBufferLists, FilterReturnNetBufferLists, and
/// the like of miniports and protocols).
#[derive(Clone, Copy, PartialEq, Eq)]
pub enum Handler {
    Send,
    SendComplete,
    Receive,
    ReceiveLent,
    Returned,
}

/// Which way a buffer list is passed: down as a send, done on the way back up, up as an indicated
/// receive, or back down.
#[derive(Clone, Copy, PartialEq, Eq)]
pub enum PassWay {
    Down,
    Done(ListStatus),
    Up,
    Back(ListStatus),
}

/// How a binding got a buffer list: as its own until it returns it, or for the time of the call.
#[derive(Clone, Copy, PartialEq, Eq)]
pub enum How {
    Own,
    Lent,
}

/// Whose state a phase row tells.
#[derive(Clone, Copy, PartialEq, Eq)]
pub enum PhaseOf {
    Module(ModuleId, ModuleState),
    Stack(Phase),
}

/// Which way a message crosses between two stacks.
#[derive(Clone, Copy, PartialEq, Eq)]
pub enum Way {
    Down,
    Up,
}

/// Which way a message leaves its stack, and downwards the list that it was taken from.
#[derive(Clone, Copy, PartialEq, Eq)]
pub enum OutWay {
    Down(ListNo),
    Up,
}

/// What is asked of a stack in one turn.
#[derive(Drop)]
pub enum Event {
    Initialize,
    Insert {
        kind: FilterKind,
        position: u8,
        setup: Setup,
    },
    Remove {
        filter: u64,
    },
    Replace {
        filter: u64,
        kind: FilterKind,
        setup: Setup,
    },
    Send {
        binding: u32,
        cancel: Option<u32>,
        frames: Frames,
    },
    Indicate {
        frames: Frames,
    },
    Lend {
        frames: Frames,
    },
    GiveBack {
        binding: u32,
        list: ListNo,
    },
    Cancel {
        id: u32,
    },
    Ask {
        binding: u32,
        kind: OidKind,
        code: u32,
        value: OidValue,
    },
    Status {
        name: StatusName,
    },
    Transmit,
    Pump,
    Drain,
    BeginPause,
    PauseNext,
    RestartNext,
    Halt,
    CrossTake,
    CrossPut {
        stack: u8,
        message: CrossNo,
        vlan: u16,
        frames: Frames,
    },
    CrossDone {
        message: CrossNo,
        status: ListStatus,
    },
    CrossTakeUp {
        binding: u32,
        vlan: u16,
    },
    CrossPutUp {
        stack: u8,
        message: CrossNo,
        frames: Frames,
    },
}

/// The answer to an event.
#[derive(Drop)]
pub enum Reply {
    Ok,
    Inserted { filter: u64 },
    Removed,
    Replaced { filter: u64 },
    Sent { list: ListNo },
    Indicated { list: ListNo },
    Lent { list: ListNo },
    Cancelled { n: u64 },
    Asked { request: OidNo },
    Wired { list: ListNo },
    Moved,
    Idle,
    Next,
    Paused,
    Running,
    Waiting { n: u64 },
    Halted,
    Taken { message: CrossNo, frames: Frames },
    Nothing,
    Crossed { list: ListNo },
    Refused(Refusal),
}

/// Why an event was refused.
#[derive(Clone, Copy, PartialEq, Eq)]
pub enum Refusal {
    WrongPhase { phase: Phase },
    InitRefused,
    NotPaused,
    Busy { n: u64 },
    Full,
    BadPosition,
    ShelfEmpty,
    AttachRefused,
    NoModule,
    Paused { phase: Phase },
    NoList,
    NotRunning,
    NotHeld,
    Unbound,
    HaltedNow,
    TooLong,
    NotTaken,
}

/// One thing that was done in a turn.
#[derive(Drop)]
pub enum Row {
    Issue {
        list: ListNo,
        owner: ModuleId,
        config: ConfigNo,
        direction: Direction,
        cancel: Option<u32>,
        origin: Origin,
        frames: Frames,
    },
    Give {
        list: ListNo,
        module: ModuleId,
        handler: Handler,
    },
    Pass {
        list: ListNo,
        way: PassWay,
        to: Target,
    },
    Keep {
        list: ListNo,
        module: ModuleId,
    },
    TurnBack {
        list: ListNo,
        module: ModuleId,
        status: ListStatus,
    },
    Home {
        list: ListNo,
        owner: ModuleId,
        status: ListStatus,
    },
    Wire {
        list: ListNo,
        frames: Frames,
    },
    Deliver {
        list: ListNo,
        binding: u32,
        how: How,
        frames: Frames,
    },
    Phase {
        of: PhaseOf,
    },
    Config {
        config: ConfigNo,
        filters: FilterList,
    },
    OidIssue {
        request: OidNo,
        parent: Option<OidNo>,
        binding: u32,
        kind: OidKind,
        code: u32,
        value: OidValue,
    },
    OidGive {
        request: OidNo,
        module: ModuleId,
    },
    OidDone {
        request: OidNo,
        status: OidStatus,
        value: OidValue,
    },
    Status {
        number: StatusNo,
        name: StatusName,
        to: Target,
    },
    Seen {
        number: StatusNo,
        module: ModuleId,
    },
    CrossOut {
        message: CrossNo,
        way: OutWay,
        frames: Frames,
    },
    CrossIn {
        stack: u8,
        message: CrossNo,
        way: Way,
        frames: Frames,
    },
}

/// The rows of a turn, seen as a list of rows.
#[derive(Drop)]
pub struct Rows {
    items: Vec<Row>,
}

impl Model for Rows {
    ghost use Rattle.std.specs.Prelude.{List};
    ghost use Rattle.journal_types.specs.declared.Row.{Row};

    ghost Value = { List Row };

    ghost view = { λ r. r.items.items };
}

impl Rows {
    pub fn of(items: Vec<Row>) -> Rows
        ensures { result ≡ items.items }
    {
        Rows { items }
    }

    pub fn items(&self) -> &[Row]
        ensures { result.now ≡ self.now }
    {
        self.items.as_slice()
    }
}

/// An event, and who asks it.
#[derive(Drop)]
pub struct Asked {
    pub who: Who,
    pub event: Event,
}

/// One turn of a stack: who asked what, the answer, and what was done.
#[derive(Drop)]
pub struct Turn {
    pub who: Who,
    pub event: Event,
    pub reply: Reply,
    pub rows: Rows,
}
