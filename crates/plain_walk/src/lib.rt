//! Walks a script by the rules alone: the opening, the calls in an order of lanes with their tails, and
//! the ending. Hold filters and retain protocols keep what they are given, the miniports initialise, and a
//! filter refuses to attach exactly where its programs don't fit its kind.
#![tactic(auto)]

pub mod fits;
pub mod heads;
pub mod relays;
pub mod sizes;
pub mod stacks;
pub mod tails;
pub mod walks;

ghost use Rattle.std.specs.Prelude.{◌≡◌};

pub use crate::stacks::{Answer, WalkedStack};
pub use crate::walks::walk;
