//! The words of a flat journal's rows, events and replies, written from where its frames stand.
#![tactic(auto)]

pub mod events;
pub mod frames;
pub mod rows;

ghost use Rattle.std.specs.Prelude.{◌≡◌};
