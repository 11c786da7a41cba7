//! What a cancel does, in every sound journal. There is no code here: each function's `ensures` is a law,
//! proved once for all journals.
#![tactic(auto)]

ghost use Rattle.cancel_laws.specs.Cancelled.{EachCancels, OnlyCancelsAbort};

/// In every sound journal a cancel turns back exactly the sends that carry its identifier and that a hold
/// filter or the miniport keeps ready, each once and as aborted, and tells how many they were; all other
/// lists stay as they are.
pub fn cancels_turn_back()
    ensures { EachCancels }
{}

/// In every sound journal a list is turned back as aborted only in the turn of a cancel, and it is one of
/// those that the cancel is for.
pub fn only_cancels_abort()
    ensures { OnlyCancelsAbort }
{}
