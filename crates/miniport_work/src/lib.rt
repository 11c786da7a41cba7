//! Lists at the miniport: sends that come down to it, its own lists that come back, and what it transmits.
#![tactic(auto)]

pub mod calls;
pub mod works;

pub use crate::works::work_miniport;
