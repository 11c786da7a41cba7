//! Messages between stacks that MUX intermediate drivers join, computed plainly.
#![tactic(auto)]

pub mod crosses;
