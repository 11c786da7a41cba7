//! What is done at bindings: a binding sends, its sends come home, and a receive is delivered or goes back.
#![tactic(auto)]

pub mod homes;
pub mod lends;
pub mod owns;
pub mod sends;
pub mod ups;

pub use crate::homes::work_owner;
pub use crate::owns::deliver_to_one;
pub use crate::sends::send;
pub use crate::ups::{return_untaken, turn_back_paused};
