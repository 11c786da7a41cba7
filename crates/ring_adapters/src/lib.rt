//! Simulated network adapters.
#![tactic(auto)]

pub mod adapter;
pub mod counts;
pub mod looping;
pub mod parts;
pub mod ring;
pub mod wires;

pub use crate::looping::LoopAdapter;
pub use crate::ring::RingAdapter;
