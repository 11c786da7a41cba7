//! The words of an NDIS 6 driver stack: its modules, numbers, states and limits, and their names.
#![tactic(auto)]

pub mod bytes;
pub mod names;

ghost use Rattle.std.specs.Prelude.{◌≡◌};

pub use crate::bytes::{Frame, OidValue};
pub use crate::names::{
    direction_of_name, filter_kind_of_name, list_status_of_name, miniport_kind_of_name,
    name_of_direction, name_of_filter_kind, name_of_list_status, name_of_miniport_kind,
    name_of_oid_kind, name_of_oid_status, name_of_phase, name_of_protocol_kind, name_of_state,
    name_of_status_name, oid_kind_of_name, oid_status_of_name, phase_of_name,
    protocol_kind_of_name, state_of_name, status_name_of_name,
};
use std::alloc::{AllocError, AllocFailed};
use thiserror::Error;

/// A module of a stack: its one miniport, a filter module by its number (from 1, in order of
/// attachment and never used again), or a protocol binding by its number (from 0).
#[derive(Clone, Copy, PartialEq, Eq)]
pub enum ModuleId {
    Miniport,
    Filter(u64),
    Binding(u32),
}

/// The number of a buffer list, from 1 in each stack in order of issue.
#[derive(Clone, Copy, PartialEq, Eq)]
pub struct ListNo(pub u64);

/// The number of an OID request, from 1 in each stack, clones among them.
#[derive(Clone, Copy, PartialEq, Eq)]
pub struct OidNo(pub u64);

/// The number of a status indication, from 1 in each stack.
#[derive(Clone, Copy, PartialEq, Eq)]
pub struct StatusNo(pub u64);

/// The number of a message between stacks, from 1 in the stack that it is taken from.
#[derive(Clone, Copy, PartialEq, Eq)]
pub struct CrossNo(pub u64);

/// The number of a configuration: 1 at initialisation, and one more at each change.
#[derive(Clone, Copy, PartialEq, Eq)]
pub struct ConfigNo(pub u64);

/// The number of a lane, from 0.
#[derive(Clone, Copy, PartialEq, Eq)]
pub struct LaneNo(pub u8);

/// The phase of a stack. It is Running exactly while the bindings are.
#[derive(Clone, Copy, PartialEq, Eq)]
pub enum Phase {
    Halted,
    Paused,
    Restarting,
    Running,
    Pausing,
}

/// The state of a module (WDK, "Miniport Adapter States and Operations", "Filter Module States
/// and Operations" and "Protocol Driver Operations").
#[derive(Clone, Copy, PartialEq, Eq)]
pub enum ModuleState {
    Halted,
    Detached,
    Attaching,
    Unbound,
    Opening,
    Closing,
    Paused,
    Restarting,
    Running,
    Pausing,
}

/// How a buffer list was done with (WDK, "NET_BUFFER_LIST structure", the field Status).
#[derive(Clone, Copy, PartialEq, Eq)]
pub enum ListStatus {
    Success,
    Paused,
    Aborted,
    Dropped,
    Resources,
}

/// How an OID request was done.
#[derive(Clone, Copy, PartialEq, Eq)]
pub enum OidStatus {
    Success,
    NotSupported,
    BadLength,
}

/// What an OID request asks (WDK, "NDIS_OID_REQUEST structure", the field RequestType).
#[derive(Clone, Copy, PartialEq, Eq)]
pub enum OidKind {
    Query,
    Set,
}

/// What a status indication tells.
#[derive(Clone, Copy, PartialEq, Eq)]
pub enum StatusName {
    LinkUp,
    LinkDown,
    Notice,
}

/// The kind of a miniport driver.
#[derive(Clone, Copy, PartialEq, Eq)]
pub enum MiniportKind {
    Ring,
    Loop,
    Virtual,
}

/// The kind of a protocol driver.
#[derive(Clone, Copy, PartialEq, Eq)]
pub enum ProtocolKind {
    Log,
    Retain,
    Echo,
    Mux,
}

/// The kind of a filter driver.
#[derive(Clone, Copy, PartialEq, Eq)]
pub enum FilterKind {
    Pass,
    Rule,
    Hold,
    Tag,
    Count,
    Classify,
}

/// Which pairs of handlers a filter has: send with send complete, receive with return, OID request
/// with OID request complete, and the status handler. A filter is bypassed for what it lacks (WDK,
/// "Filter Module Bypass Mode").
#[derive(Clone, Copy, PartialEq, Eq)]
pub struct Handlers {
    pub send: bool,
    pub receive: bool,
    pub oid: bool,
    pub status: bool,
}

/// The limits that a stack is opened with: the bytes in a frame, and the filters in a stack.
#[derive(Clone, Copy, PartialEq, Eq)]
pub struct Limits {
    pub max_frame: usize,
    pub max_filters: usize,
}

/// How many turns a stack has had, and its phase after them.
#[derive(Clone, Copy, PartialEq, Eq)]
pub struct Front {
    pub turns: u64,
    pub phase: Phase,
}

/// Who made a turn: the run itself, a lane by a call of the script, or a lane by a call's tail.
#[derive(Clone, Copy, PartialEq, Eq)]
pub enum Who {
    Own,
    Call(LaneNo),
    Help(LaneNo),
}

/// The direction of a buffer list: sent down, indicated up, or lent upwards for the time of the
/// indication (WDK, "Receiving Data", the flag NDIS_RECEIVE_FLAGS_RESOURCES).
#[derive(Clone, Copy, PartialEq, Eq)]
pub enum Direction {
    Down,
    Up,
    Lent,
}

/// Where a buffer list comes from: it is a root, or a clone or a copy of another list.
#[derive(Clone, Copy, PartialEq, Eq)]
pub enum Origin {
    Root,
    Clone(ListNo),
    Copy(ListNo),
}

/// Memory ran out.
#[derive(Clone, Copy, Debug, PartialEq, Eq, Error)]
#[error("out of memory")]
pub struct OutOfMemory;

impl From<AllocError> for OutOfMemory {
    fn from(_fault: AllocError) -> OutOfMemory {
        OutOfMemory
    }
}

impl<T: Drop> From<AllocFailed<T>> for OutOfMemory {
    fn from(_fault: AllocFailed<T>) -> OutOfMemory {
        OutOfMemory
    }
}
