//! Simulated filter drivers without rules, and what all filters have in common.
#![tactic(auto)]

pub mod count;
pub mod counts;
pub mod hold;
pub mod homes;
pub mod originals;
pub mod parts;
pub mod pass;
pub mod plain;

pub use crate::count::CountFilter;
pub use crate::counts::{not_called, risen};
pub use crate::hold::HoldFilter;
pub use crate::originals::take_home;
pub use crate::pass::PassFilter;
