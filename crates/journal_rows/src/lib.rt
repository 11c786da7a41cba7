//! Rows as words of a journal text.
#![tactic(auto)]

pub mod rows;

ghost use Rattle.std.specs.Prelude.{◌≡◌};
