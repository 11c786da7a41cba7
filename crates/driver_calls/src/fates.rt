//! What becomes of a list that is lent to a filter.

/// What a filter made of a list that was lent to it.
#[derive(Clone, Copy, PartialEq, Eq)]
pub enum LentFate {
    /// It left the list as it is, and the list goes further up.
    Left,
    /// Its program left no frames.
    Dropped,
    /// It would have changed the frames, and its pool had no list for the copy.
    Lacking,
    /// It passed a copy with other frames on in the place of the list.
    Copied,
}
