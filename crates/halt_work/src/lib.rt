//! A Paused stack is halted: its drivers are shut down, and the rows of it are written.
#![tactic(auto)]

pub mod drivers;
pub mod halts;
pub mod quiet;
pub mod rows;

pub use crate::halts::halt;
