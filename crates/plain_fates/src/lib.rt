//! The fate of each list of a journal, computed plainly: each function computes the definition of its name,
//! slowly, from the journal alone.
#![tactic(auto)]

pub mod deliveries;
pub mod fates;
pub mod receives;
pub mod sends;
pub mod settled;

ghost use Rattle.std.specs.Prelude.{◌≡◌};

pub use crate::fates::has_fates;
