//! The condition of each event, computed plainly from the fixed part of the stack.
#![tactic(auto)]

pub mod conditions;

ghost use Rattle.std.specs.Prelude.{◌≡◌};
