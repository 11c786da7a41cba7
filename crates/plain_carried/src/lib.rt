//! What is carried through the filters of one configuration, computed plainly from the journal alone.
#![tactic(auto)]

pub mod carried;
pub mod configs;
pub mod configuration;
pub mod setups;

ghost use Rattle.std.specs.Prelude.{◌≡◌};

pub use crate::configuration::has_one_configuration;
