//! OID requests and status indications, computed plainly.
#![tactic(auto)]

pub mod requests;
pub mod statuses;
pub mod table;
