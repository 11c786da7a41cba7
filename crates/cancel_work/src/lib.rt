//! Cancels: the sends that carry an identifier and stand still are turned back.
#![tactic(auto)]

pub mod calls;
pub mod cancels;

pub use crate::cancels::cancel;
