//! A whole run of one stack: the opening with its filters, the calls with their tails, and the ending.
#![tactic(auto)]

pub mod answers;
pub mod asking;
pub mod calls;
pub mod ending;
pub mod opening;
pub mod pausing;
pub mod restarting;

pub use crate::calls::run_call;
pub use crate::ending::end_stack;
pub use crate::opening::open_stack;
