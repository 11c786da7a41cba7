//! The calls of a script, read from the tokens of its text.
#![tactic(auto)]

pub mod calls;
pub mod digits;
