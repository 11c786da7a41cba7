//! What an event and its reply tell beside the rows of their turn.
use flat_journal::{FlatEvent, FlatReply};

/// The event and the reply of a turn, where these tell something beside its rows: the set-up of a new
/// filter, or the message that is taken up.
#[derive(Clone, Copy)]
pub struct Telling {
    pub event: FlatEvent,
    pub reply: FlatReply,
}
