//! Initialising, pausing, restarting and halting a stack, and changes of its filters, computed plainly.
#![tactic(auto)]

pub mod pauses;

ghost use Rattle.std.specs.Prelude.{◌≡◌};
