//! Events, replies and rows that show frames, filters, values and set-ups by where they stand.
ghost use Rattle.std.specs.Prelude.{◌≡◌};
ghost use Rattle.flat_journal.specs.Rooms.{no_room};

use frame_arena::FrameSpan;
use journal_types::{Handler, How, OutWay, PassWay, PhaseOf, Refusal, Target, Way};
use ndis_base::{
    ConfigNo, CrossNo, Direction, FilterKind, ListNo, ListStatus, ModuleId, OidKind, OidNo,
    OidStatus, Origin, StatusName, StatusNo, Who,
};

/// Where the filters of a configuration stand.
#[derive(Clone, Copy, PartialEq, Eq)]
pub struct FilterSpan {
    pub first: usize,
    pub count: usize,
}

/// Where the value of an OID request stands: its bytes stand in the arena, as those of a frame.
#[derive(Clone, Copy, PartialEq, Eq)]
pub struct ValueNo(pub usize);

/// Where the set-up of a filter stands.
#[derive(Clone, Copy, PartialEq, Eq)]
pub struct SetupNo(pub usize);

/// What is asked of a stack in one turn.
#[derive(Clone, Copy)]
pub enum FlatEvent {
    Initialize,
    Insert {
        kind: FilterKind,
        position: u8,
        setup: SetupNo,
    },
    Remove {
        filter: u64,
    },
    Replace {
        filter: u64,
        kind: FilterKind,
        setup: SetupNo,
    },
    Send {
        binding: u32,
        cancel: Option<u32>,
        frames: FrameSpan,
    },
    Indicate {
        frames: FrameSpan,
    },
    Lend {
        frames: FrameSpan,
    },
    GiveBack {
        binding: u32,
        list: ListNo,
    },
    Cancel {
        id: u32,
    },
    Ask {
        binding: u32,
        kind: OidKind,
        code: u32,
        value: ValueNo,
    },
    Status {
        name: StatusName,
    },
    Transmit,
    Pump,
    Drain,
    BeginPause,
    PauseNext,
    RestartNext,
    Halt,
    CrossTake,
    CrossPut {
        stack: u8,
        message: CrossNo,
        vlan: u16,
        frames: FrameSpan,
    },
    CrossDone {
        message: CrossNo,
        status: ListStatus,
    },
    CrossTakeUp {
        binding: u32,
        vlan: u16,
    },
    CrossPutUp {
        stack: u8,
        message: CrossNo,
        frames: FrameSpan,
    },
}

/// The answer to an event.
#[derive(Clone, Copy)]
pub enum FlatReply {
    Ok,
    Inserted { filter: u64 },
    Removed,
    Replaced { filter: u64 },
    Sent { list: ListNo },
    Indicated { list: ListNo },
    Lent { list: ListNo },
    Cancelled { n: u64 },
    Asked { request: OidNo },
    Wired { list: ListNo },
    Moved,
    Idle,
    Next,
    Paused,
    Running,
    Waiting { n: u64 },
    Halted,
    Taken { message: CrossNo, frames: FrameSpan },
    Nothing,
    Crossed { list: ListNo },
    Refused(Refusal),
}

/// One thing that was done in a turn.
#[derive(Clone, Copy)]
pub enum FlatRow {
    Issue {
        list: ListNo,
        owner: ModuleId,
        config: ConfigNo,
        direction: Direction,
        cancel: Option<u32>,
        origin: Origin,
        frames: FrameSpan,
    },
    Give {
        list: ListNo,
        module: ModuleId,
        handler: Handler,
    },
    Pass {
        list: ListNo,
        way: PassWay,
        to: Target,
    },
    Keep {
        list: ListNo,
        module: ModuleId,
    },
    TurnBack {
        list: ListNo,
        module: ModuleId,
        status: ListStatus,
    },
    Home {
        list: ListNo,
        owner: ModuleId,
        status: ListStatus,
    },
    Wire {
        list: ListNo,
        frames: FrameSpan,
    },
    Deliver {
        list: ListNo,
        binding: u32,
        how: How,
        frames: FrameSpan,
    },
    Phase {
        of: PhaseOf,
    },
    Config {
        config: ConfigNo,
        filters: FilterSpan,
    },
    OidIssue {
        request: OidNo,
        parent: Option<OidNo>,
        binding: u32,
        kind: OidKind,
        code: u32,
        value: ValueNo,
    },
    OidGive {
        request: OidNo,
        module: ModuleId,
    },
    OidDone {
        request: OidNo,
        status: OidStatus,
        value: ValueNo,
    },
    Status {
        number: StatusNo,
        name: StatusName,
        to: Target,
    },
    Seen {
        number: StatusNo,
        module: ModuleId,
    },
    CrossOut {
        message: CrossNo,
        way: OutWay,
        frames: FrameSpan,
    },
    CrossIn {
        stack: u8,
        message: CrossNo,
        way: Way,
        frames: FrameSpan,
    },
}

/// A turn without its rows, and where these stand: from `first` up to `end`.
#[derive(Clone, Copy)]
pub struct TurnHead {
    pub who: Who,
    pub event: FlatEvent,
    pub reply: FlatReply,
    pub first: usize,
    pub end: usize,
}

/// A turn and its rows, as they stand in a journal.
#[derive(Clone, Copy)]
pub struct TurnRef<'a> {
    pub who: Who,
    pub event: FlatEvent,
    pub reply: FlatReply,
    pub rows: &'a [FlatRow],
}

/// Room for so many further turns, rows, frames (values of OID requests among them), bytes of
/// frames, filters and set-ups.
#[derive(Clone, Copy, PartialEq, Eq)]
pub struct Room {
    pub turns: usize,
    pub rows: usize,
    pub frames: usize,
    pub bytes: usize,
    pub filters: usize,
    pub setups: usize,
}

impl Room {
    /// Room for nothing.
    pub fn none() -> Room
        ensures { result ≡ no_room }
    {
        Room {
            turns: 0,
            rows: 0,
            frames: 0,
            bytes: 0,
            filters: 0,
            setups: 0,
        }
    }
}
