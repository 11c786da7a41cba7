//! Frame programs, computed plainly: what the rules of a program make of a frame, and of the frames of a
//! list.
#![tactic(auto)]

pub mod bytes;
pub mod rules;
