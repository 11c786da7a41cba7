//! What a book calls of its drivers of every kind. Each kind of driver has two traits with the same
//! calls: the one that an author implements, whose drivers may go to another thread, and the one under
//! which books are written, which the first one's box implements.
#![tactic(auto)]

pub mod answers;
pub mod fates;
pub mod faults;
pub mod filter;
pub mod miniport;
pub mod protocol;

pub use crate::answers::OidAnswer;
pub use crate::fates::LentFate;
pub use crate::faults::AttachFault;
pub use crate::filter::{FilterCalls, FilterDriver};
pub use crate::miniport::{MiniportCalls, MiniportDriver};
pub use crate::protocol::{ProtocolCalls, ProtocolDriver};
