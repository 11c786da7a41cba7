//! A stack pauses position by position, from the top down: the first position that isn't Paused becomes it as soon as
//! it has nothing outstanding, and the modules of the next one are told.
#![tactic(auto)]

pub mod calls;
pub mod counts;
pub mod floor;
pub mod next;
pub mod writes;

pub use crate::next::pause_next;
