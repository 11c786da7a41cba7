//! A receive at the bindings, for any number of takers: it is lent to all but the last one, which gets it as its own
//! (WDK, "Receiving Data in Protocol Drivers").
#![tactic(auto)]

pub mod bindings;
pub mod lending;
pub mod rooming;
pub mod taking;

pub use crate::bindings::work_bindings;
