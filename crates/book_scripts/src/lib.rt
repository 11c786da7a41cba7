//! A whole run of one stack over a script's calls.
#![tactic(auto)]

pub mod runs;

pub use crate::runs::run_stack;
