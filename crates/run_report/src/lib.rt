//! The report of a run: the journal of each stack, and the calls that were refused before a turn.
#![tactic(auto)]

pub mod refused;
pub mod report;

ghost use Rattle.std.specs.Prelude.{◌≡◌};

pub use crate::refused::Refused;
pub use crate::report::{ReportFault, write_report};
