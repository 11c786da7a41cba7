//! What a journal's text is, line by line, and the lines that no turn has a part in.
#![tactic(auto)]

pub mod lines;

ghost use Rattle.std.specs.Prelude.{◌≡◌};

pub use crate::lines::{push_binding, push_head};
