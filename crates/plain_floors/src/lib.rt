//! The positions of a stack in the order in which they pause, and what keeps a stack busy, computed
//! plainly.
#![tactic(auto)]

pub mod floors;
pub mod items;

ghost use Rattle.std.specs.Prelude.{◌≡◌};
