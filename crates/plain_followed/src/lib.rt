//! Whether the journals hold a lane's calls in order, each with its tail and nothing else of the lane, and
//! whether a stack is opened before all calls and ended after them: decided plainly and slowly from the
//! journals alone; and tests of an event against what is asked.
#![tactic(auto)]

pub mod asked;
pub mod events;
pub mod followed;
pub mod own;
pub mod rests;
pub mod same;
pub mod tails;

pub use crate::followed::is_followed;
pub use crate::own::is_opened_and_ended;
