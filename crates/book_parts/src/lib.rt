//! The parts of a stack's book: the tray, its drivers by place, and their pools.
#![tactic(auto)]

pub mod parts;

pub use crate::parts::BookParts;
