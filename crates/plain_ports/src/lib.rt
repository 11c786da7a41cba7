//! What the miniport has counted, and the messages that mux bindings keep, as plain vectors.
#![tactic(auto)]

pub mod messages;
pub mod port;

pub use crate::port::PlainPort;
