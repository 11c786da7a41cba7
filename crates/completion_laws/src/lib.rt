//! Each OID request of a sound journal completes once at most, by its own clone. There is no code here:
//! the function's `ensures` is a law, proved once for all journals.
#![tactic(auto)]

ghost use Rattle.completion_laws.specs.Completed.{EachCompletesOnce};

/// In every sound journal a request is given once and done once at most: one that is given to the
/// miniport in that turn and without a clone, one that is given to a filter by the one clone that the
/// filter issues in that turn, and with the clone's answer.
pub fn requests_complete_once()
    ensures { EachCompletesOnce }
{}
