//! Simulated filter drivers that do with frames what their programs say.
#![tactic(auto)]

pub mod handling;
pub mod parts;
pub mod programmed;
pub mod rule;
pub mod tag;
pub mod tagging;

pub use crate::rule::RuleFilter;
pub use crate::tag::TagFilter;
