//! Where modules and lists are, where lists and statuses go next, and what a turn answers, computed
//! plainly.
#![tactic(auto)]

pub mod lists;
pub mod outcome;
pub mod places;
pub mod targets;

pub use crate::outcome::PlainOutcome;
