//! Tests of libraries through their public functions, a module for each library.
#![tactic(auto)]

pub mod flat_copies;
#[cfg(test)]
mod flat_texts;
#[cfg(test)]
mod lists_in_pools;
#[cfg(test)]
mod memory_ends;
#[cfg(test)]
mod moved_data;
#[cfg(test)]
mod report_texts;
#[cfg(test)]
mod sent_frame;
#[cfg(test)]
mod two_pauses;

ghost use Rattle.std.specs.Prelude.{◌≡◌};
