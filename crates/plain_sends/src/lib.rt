//! What becomes of a buffer list on its way down, computed plainly.
#![tactic(auto)]

pub mod handled;
pub mod sends;
