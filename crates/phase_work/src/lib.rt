//! A stack pauses and restarts: the rows of phases, which call nobody and log nothing, and the events that
//! write them.
#![tactic(auto)]

pub mod floors;
pub mod pauses;
