//! What is received outside the pump: the miniport indicates frames, and a protocol gives back a list that it keeps.
#![tactic(auto)]

pub mod indications;
pub mod returns;

pub use crate::indications::indicate;
pub use crate::returns::give_back;
