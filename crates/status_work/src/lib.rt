//! Statuses on their way up: the miniport indicates them, each filter with the status handler sees them and
//! indicates them further, and in the end all bindings see them (WDK, "Status Indications").
#![tactic(auto)]

pub mod bindings;
pub mod filters;
pub mod indications;
pub mod works;

pub use crate::indications::indicate_status;
pub use crate::works::work_status;
