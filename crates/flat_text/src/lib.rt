//! The text of a flat journal, line by line.
#![tactic(auto)]

pub mod counts;
pub mod lines;

ghost use Rattle.std.specs.Prelude.{◌≡◌};

pub use crate::lines::FlatLines;
