//! Journals and their text.
#![tactic(auto)]

pub mod counts;
pub mod lines;
pub mod text;

ghost use Rattle.std.specs.Prelude.{◌≡◌};

pub use crate::lines::Lines;
pub use crate::text::write_text;
pub use journal_store::Journal;
pub use journal_types::{
    Asked, BindingSetups, Event, FilterList, Frames, Handler, How, OutWay, PassWay, PhaseOf,
    PortSetup, Refusal, Reply, Row, Rows, Setup, StackHead, Target, Turn, UpperLinks, Way,
};
pub use journal_words::Page;
