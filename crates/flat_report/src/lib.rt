//! The report of a run from flat journals: the journal of each stack, and the calls that were refused
//! before a turn.
#![tactic(auto)]

pub mod report;

ghost use Rattle.std.specs.Prelude.{◌≡◌};

pub use crate::report::write_flat_report;
