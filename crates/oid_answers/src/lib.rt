//! What an adapter answers to OID requests, by the table of the OIDs that it knows.
#![tactic(auto)]

pub mod answers;
pub mod codes;
pub mod packet_filters;
pub mod reports;

pub use crate::reports::report_in;
