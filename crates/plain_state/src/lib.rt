//! The modules, the requests and the counters of a stack, as plain vectors.
#![tactic(auto)]

pub mod counters;
pub mod filters;
pub mod modules;
pub mod requests;

pub use crate::counters::PlainCounters;
pub use crate::modules::PlainModules;
