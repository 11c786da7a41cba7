//! Who sees a status, of each sound journal. There is no code here: the function's `ensures` is a law, proved
//! once for all journals.
#![tactic(auto)]

ghost use Rattle.seen_laws.specs.Seen.{EachStatusIsSeenOnce};

/// In every sound journal a status is seen once by each module that it reaches, and by no other: by each
/// filter of the configuration that has the status handler, and by each binding.
pub fn statuses_are_seen_once()
    ensures { EachStatusIsSeenOnce }
{}
