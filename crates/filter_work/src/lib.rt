//! Lists at filters: each is given to the filter that it is on its way to, which does with it what the
//! rules know.
#![tactic(auto)]

pub mod calls;
pub mod places;

pub use crate::places::work_filter;
