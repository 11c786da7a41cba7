//! A stack is initialised and restarts: its drivers are set up or told to run, and the rows of it are written.
#![tactic(auto)]

pub mod drivers;
pub mod floors;
pub mod initial;
pub mod restarts;
pub mod vlans;

pub use crate::initial::initialize;
pub use crate::restarts::restart_next;
