//! The lists that a driver keeps, the oldest first. Those that are given away leave together, so that what
//! leaves is chosen before anything is written.
#![tactic(auto)]

pub mod emptying;
pub mod kept;
pub mod parting;

pub use crate::kept::KeptLists;
