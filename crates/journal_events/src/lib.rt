//! Events and replies as words of a journal text.
#![tactic(auto)]

pub mod events;

ghost use Rattle.std.specs.Prelude.{◌≡◌};
