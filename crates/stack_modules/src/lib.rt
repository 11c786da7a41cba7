//! The modules of a stack: their states, the filters that are attached, and the configuration; and where
//! a list or a status goes next. After they are made they take no memory.
#![tactic(auto)]

pub mod filters;
pub mod image;
pub mod modules;
pub mod pairs;
pub mod targets;

pub use crate::filters::FilterEntry;
pub use crate::image::ProgramImage;
pub use crate::modules::StackModules;
pub use crate::pairs::{Pair, position};
pub use crate::targets::{next_back, next_done, next_down, next_status, next_up};
