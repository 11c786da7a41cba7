//! The small parts of the plain program that computes the rules of the stack: copies of what a journal is
//! made of, tests, and lists of rows.
#![tactic(auto)]

pub mod copies;
pub mod rows;
pub mod same;
