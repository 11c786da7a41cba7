//! JSON values read from the tokens of a text one at a time, with no tree of the whole.
#![tactic(auto)]

pub mod parts;
pub mod tree;
