//! A lock whose turns are taken in the order of their tickets, whose object has one history, and whose front is
//! read by one load, without a wait.
#![tactic(auto)]

mod lock;
mod plays;
mod rule;
mod seat;
mod table;
mod turned;
mod view;

pub use seat::{Seat, SeatAt};
pub use table::TurnLock;
pub use turned::Turned;
pub use view::{Ended, Entry};
