//! Buffer lists of several frames, and pools of a fixed size that make and free them (WDK,
//! "NET_BUFFER_LIST structure" and "NdisAllocateNetBufferListPool"). A pool takes all its memory
//! when it is made.
#![tactic(auto)]

pub mod image;
pub mod label;
pub mod list;
pub mod pool;
pub mod slot;
pub mod space;

pub use crate::label::Label;
pub use crate::list::{BufferList, KeptList};
pub use crate::pool::{ListPool, NoList};
pub use net_buffer::{NetBuffer, NoRoom, TooFar};
