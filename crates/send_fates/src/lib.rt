//! The fate of sends, of each sound journal. There is no code here: the function's `ensures` is a law, proved
//! once for all journals.
#![tactic(auto)]

ghost use Rattle.send_fates.specs.Sends.{EachSendMeetsItsFate};

/// In every sound journal a send that is home was on the wire, turned back or taken to another stack, just
/// one of these and just once, and is home with its status.
pub fn sends_meet_their_fate()
    ensures { EachSendMeetsItsFate }
{}
