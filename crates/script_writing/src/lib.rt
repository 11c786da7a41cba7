//! Scripts written as their texts.
#![tactic(auto)]

mod calls;
mod filters;
mod members;
mod stacks;
mod whole;

pub use crate::whole::write_script;
