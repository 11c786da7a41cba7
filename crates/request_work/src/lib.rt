//! OID requests on their way down: a binding asks, and a filter forwards by a clone (WDK, "OID Request
//! Serialization", "Filter Module OID Requests").
#![tactic(auto)]

pub mod asks;
pub mod forwards;

pub use crate::asks::ask;
pub use crate::forwards::forward;
