//! A counter under a turn lock: what two threads do to it, and what its fronts show.
#![tactic(auto)]

mod counter;
#[cfg(test)]
mod tests;
mod threads;

pub use counter::Counter;
pub use threads::add_in_two_threads;
