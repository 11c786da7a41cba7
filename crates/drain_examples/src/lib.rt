//! Two pauses that are there: one of a stack whose miniport has a frame in its ring, and one of a stack
//! whose hold filter keeps a frame.
#![tactic(auto)]

pub mod journals;
pub mod laws;
pub mod states;

ghost use Rattle.std.specs.Prelude.{◌≡◌};
