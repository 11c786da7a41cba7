//! The state of a stack after the turns of its journal, computed row by row on plain vectors.
#![tactic(auto)]

pub mod net;

pub use crate::net::PlainNet;
