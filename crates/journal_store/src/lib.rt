//! The journal of a stack, with room for further turns.
#![tactic(auto)]

pub mod journal;
pub mod sizes;

pub use crate::journal::Journal;
