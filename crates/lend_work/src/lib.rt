//! A miniport indicates a list that stays its own: the list is lent to its filters, the nearest first, and to its bindings,
//! and is home again as the turn ends (WDK, "Receiving Data", NDIS_RECEIVE_FLAGS_RESOURCES).
#![tactic(auto)]

pub mod bindings;
pub mod climbs;
pub mod lends;
pub mod rooming;
pub mod visits;

pub use crate::lends::lend;
