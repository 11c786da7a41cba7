//! OID requests on their way back: the miniport answers, and a filter completes what it forwarded (WDK, "OID
//! Request Serialization", "Filter Module OID Requests").
#![tactic(auto)]

pub mod finishes;
pub mod reports;
mod tellings;

pub use crate::finishes::finish;
pub use crate::reports::report;
