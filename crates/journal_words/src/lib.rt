//! The words of a journal text: numbers, names, hexadecimal digits, lists of frames and programs.
#![tactic(auto)]

pub mod page;
pub mod programs;

ghost use Rattle.std.specs.Prelude.{◌≡◌};

pub use crate::page::Page;
