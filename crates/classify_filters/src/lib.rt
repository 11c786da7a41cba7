//! Simulated filter drivers that drop the lists with a frame of one class.
#![tactic(auto)]

pub mod blocking;
pub mod class;
pub mod classify;
pub mod homes;
pub mod parts;

pub use crate::blocking::{block, is_blocking, lent};
pub use crate::class::{FrameClass, LldpClass, ethertype_of};
pub use crate::homes::pass_home;
pub use crate::parts::ClassifyFilter;
