//! Drains: what stands still while a stack is to become empty is moved.
#![tactic(auto)]

pub mod bindings;
pub mod calls;
pub mod drains;
pub mod filters;

pub use crate::drains::drain_still;
