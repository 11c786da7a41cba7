//! The rows of a list and the families of lists in a journal, computed plainly: each function computes the
//! definition of its name, slowly, from the journal alone.
#![tactic(auto)]

pub mod families;
pub mod roots;
pub mod rows;

ghost use Rattle.std.specs.Prelude.{◌≡◌};

pub use crate::rows::Wanted;
