//! What is promised of every sound journal, as definitions over the journal alone. They stand in
//! specs/: the rows of a list, families and their fates, one configuration, requests, stacks that are
//! joined, the calls of a script that a journal follows, and the drivers that a journal calls. Here is
//! where a driver stands among those that were handed in.
#![tactic(auto)]

use journal_types::Frames;
use ndis_base::{CrossNo, ListStatus, ModuleId};

/// The place of a driver: which of the three lists of handed-in drivers it stands in, and its number
/// there, from 0.
#[derive(Clone, Copy, PartialEq, Eq)]
pub enum Place {
    Miniport(usize),
    Filter(usize),
    Protocol(usize),
}

/// What a driver is called for; the counts that it keeps of its calls have these names.
#[derive(Clone, Copy, PartialEq, Eq)]
pub enum Called {
    Send,
    SendComplete,
    Receive,
    ReceiveLent,
    Returned,
    Oid,
    OidComplete,
    Status,
}

/// A call of a module's driver.
#[derive(Clone, Copy, PartialEq, Eq)]
pub struct Call {
    pub module_id: ModuleId,
    pub what: Called,
}

/// What is still to be asked after a call: nothing; a pump until one is idle, of one stack or of two,
/// the one after the other; a pause until it is paused, after a waiting with a drain first; a restart
/// until the stack runs; and the turns of a message that crosses between two stacks. Stacks are
/// named by their numbers.
#[derive(Drop)]
pub enum Tail {
    Ended,
    Pumping(u8),
    PumpingBoth(u8, u8),
    Pausing(u8),
    Draining(u8),
    Restarting(u8),
    Putting {
        upper: u8,
        lower: u8,
        message: CrossNo,
        vlan: u16,
        frames: Frames,
        pumps: bool,
    },
    EndingMessage {
        upper: u8,
        lower: u8,
        message: CrossNo,
        status: ListStatus,
        pumps: bool,
    },
    PuttingUp {
        upper: u8,
        lower: u8,
        message: CrossNo,
        frames: Frames,
        pumps: bool,
    },
}

/// The stack below a virtual miniport, the mux binding there that it stands on, and its VLAN.
#[derive(Clone, Copy, PartialEq, Eq)]
pub struct Link {
    pub lower: u8,
    pub binding: u32,
    pub vlan: u16,
}

/// What the opening of a stack has still to do: to initialise; to insert the filters that are left
/// above so many that are attached, and then to restart until the stack runs; and nothing.
#[derive(Clone, Copy, PartialEq, Eq)]
pub enum Opening {
    Initialising,
    Inserting(u64),
    Opened,
}

/// What the ending of a stack has still to do: a stack that is pausing or doesn't run is brought to
/// run again, all is pumped, it is paused, all is pumped, and it is halted.
#[derive(Clone, Copy, PartialEq, Eq)]
pub enum Ending {
    PausingFirst,
    DrainingFirst,
    Restarting,
    Pumping,
    BeginningPause,
    Pausing,
    Draining,
    PumpingLast,
    Halting,
    Ended,
}
