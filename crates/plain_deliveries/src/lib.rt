//! What becomes of a buffer list at the bindings, and on its way home, computed plainly.
#![tactic(auto)]

pub mod deliveries;
pub mod dones;
