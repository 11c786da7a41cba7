// What a seat knows. No value of these types is made: contracts and proofs alone speak of them.
use ndis_base::{OutOfMemory, Phase};
use std::collections::LinkedList;
use std::snapshot::Snapshot;

/// An entry of a lock's history: one turn, with the number of the seat that took it, its call and answer, and the
/// phase of the object after it.
pub struct Entry<C, R> {
    pub by: u64,
    pub call: C,
    pub reply: Result<R, OutOfMemory>,
    pub phase: Phase,
}

/// A seat that was joined into another: its number and its calls.
pub struct Ended<C, R> {
    pub number: u64,
    pub calls: LinkedList<Entry<C, R>>,
}

/// What a seat is about to do: nothing, to wait with a ticket until it is served, or to serve it with the object.
pub enum Role<O> {
    Idle,
    Waits(u64),
    Serves(u64, O),
}

/// All that the table keeps of a seat.
pub struct View<O, C, R> {
    pub live: bool,
    pub parts: u64,
    pub role: Role<O>,
    pub named: bool,
    pub number: u64,
    /// Numbers of other seats.
    pub known: LinkedList<u64>,
    pub loads: u64,
    pub opening: Option<O>,
    pub seen: LinkedList<Entry<C, R>>,
    /// At the last join, the shorter of what the two seats had seen.
    pub behind: LinkedList<Entry<C, R>>,
    pub own: LinkedList<Entry<C, R>>,
    pub ended: LinkedList<Ended<C, R>>,
}

/// What the table is told once: the object that the lock was made with, and the number of its parts.
pub struct About<O> {
    pub object: Snapshot<O>,
    pub seats: usize,
}

impl<O> Drop for About<O> {
    fn drop(self) {
        let Self {
            object: _,
            seats: _,
        } = self;
    }
}
