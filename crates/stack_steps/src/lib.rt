//! One step of a stack: the journal has the event, its function works it, and its rows become a turn.
#![tactic(auto)]

pub mod steps;

pub use crate::steps::step;
