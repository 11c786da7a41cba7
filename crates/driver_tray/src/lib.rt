//! The tray into which a driver writes its calls, and which the stack works off afterwards.
#![tactic(auto)]

pub mod away;
pub mod holding;
pub mod lists;
pub mod on_way;
pub mod requests;
pub mod states;
pub mod statuses;
pub mod telling;
pub mod tray;
pub mod turns;

pub use crate::on_way::First;
pub use crate::telling::Telling;
pub use crate::tray::Tray;
pub use stack_ledger::Giving;
