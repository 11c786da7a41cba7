//! The lists, statuses and answers that are on their way or kept, as a plain vector in the order of their
//! last row.
#![tactic(auto)]

pub mod things;
