//! The calls of a script, read from JSON.
#![tactic(auto)]

pub mod calls;

ghost use Rattle.std.specs.Prelude.{◌≡◌};
