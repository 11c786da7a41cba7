//! Changes of the filters of a stack, computed plainly.
#![tactic(auto)]

pub mod rewires;

ghost use Rattle.std.specs.Prelude.{◌≡◌};
