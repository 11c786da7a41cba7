//! Pump steps, drain steps and cancels, computed plainly.
#![tactic(auto)]

pub mod cancels;
pub mod drains;
pub mod pumps;

ghost use Rattle.std.specs.Prelude.{◌≡◌};
