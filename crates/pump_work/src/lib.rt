//! A pump works the first thing on its way; where there is none, a request that may be given.
#![tactic(auto)]

pub mod givings;
pub mod pumps;

pub use crate::pumps::{move_first, pump};
