//! The journal of a stack in few vectors: heads of turns, the rows of all turns, and one arena of
//! frames, so that a frame's bytes stand once for all that show them.
#![tactic(auto)]

mod copying;
pub mod journal;
pub mod turns;
pub mod types;

pub use crate::journal::FlatJournal;
pub use crate::turns::copied_setup;
pub use crate::types::{
    FilterSpan, FlatEvent, FlatReply, FlatRow, Room, SetupNo, TurnHead, TurnRef, ValueNo,
};
