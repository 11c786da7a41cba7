//! How requests complete, and how stacks are joined, computed plainly: each function computes the definition
//! of its name, slowly, from the journals alone.
#![tactic(auto)]

pub mod completions;
pub mod links;
pub mod messages;

ghost use Rattle.std.specs.Prelude.{◌≡◌};

pub use crate::completions::{are_completed, completes_once};
pub use crate::links::are_linked;
