//! Filters are attached and detached while a stack is Paused.
#![tactic(auto)]

pub mod inserts;
pub mod quiet;
pub mod removes;
pub mod replaces;
pub mod room;
pub mod seats;

pub use crate::inserts::insert;
pub use crate::removes::remove;
pub use crate::replaces::replace;
