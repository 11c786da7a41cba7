//! Which of the drivers that are handed in a stack takes, generic in the drivers.
#![tactic(auto)]

pub mod choosing;
pub mod places;
