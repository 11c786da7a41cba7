//! Where bytes come from and where they go: sources and sinks with the causes of their faults, and
//! those in memory and of std.
#![tactic(auto)]

pub mod memory;
pub mod sink;
pub mod source;
pub mod standard;

ghost use Rattle.std.specs.Prelude.{◌≡◌};

pub use crate::memory::{MemorySink, MemorySource};
pub use crate::sink::{Sink, write_whole};
pub use crate::source::{Failed, ReadRefusal, Source, read_all};
pub use crate::standard::{StdSink, StdSource};
