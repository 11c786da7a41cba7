//! The stacks of a script and their filters, read from JSON.
#![tactic(auto)]

pub mod filters;
pub mod stacks;

ghost use Rattle.std.specs.Prelude.{◌≡◌};
