//! Opening a stack over the drivers that are handed in, and closing it, generic in the drivers.
#![tactic(auto)]

pub mod closing;
pub mod opening;
pub mod pools;

pub use crate::closing::{abandon, close};
pub use crate::opening::{OpenFault, StackDrivers, open};
