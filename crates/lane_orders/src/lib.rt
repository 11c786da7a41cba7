//! In which order the calls of several lanes are made.
#![tactic(auto)]

pub mod orders;

pub use crate::orders::in_order;
