//! What a frame program makes of the frames of a list, in memory that was taken before.
#![tactic(auto)]

pub mod addresses;
pub mod judging;
pub mod made;
pub mod wrapping;

pub use crate::made::MadeFrames;
pub use frame_rules::Verdict;
