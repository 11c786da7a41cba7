//! What is asked at run time of the state of a stack and isn't a list, a status, an answer or a message:
//! the phase, the modules, the requests, the counts and the numbers that come next. It is kept as rows
//! are written. Only `make` and `make_room` take memory.
#![tactic(auto)]

pub mod floors;
pub mod giving;
pub mod ledger;
pub mod numbers;
pub mod port;
pub mod queries;
pub mod requests;

pub use crate::giving::Giving;
pub use crate::ledger::StackLedger;
