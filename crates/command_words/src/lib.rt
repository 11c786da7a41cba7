//! The words of the command, and the order of lanes that they ask for.
#![tactic(auto)]

pub mod words;

pub use crate::words::order_of;
