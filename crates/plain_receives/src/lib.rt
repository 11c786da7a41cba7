//! What becomes of a buffer list on its way up, computed plainly.
#![tactic(auto)]

pub mod receives;
