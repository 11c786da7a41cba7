//! How much each event of a sound journal may leave to do. There is no code here: each function's
//! `ensures` is a law, proved once for all journals.
#![tactic(auto)]

ghost use Rattle.std.specs.Prelude.{◌*◌, ◌-◌};
ghost use Rattle.stack_rules.specs.Work.{bottom};
ghost use Rattle.journal_types.specs.declared.Event.TheVariants.{Drain};
ghost use Rattle.work_laws.specs.Bounds.{is_ask, is_cancelling, is_done, is_drain, is_give_back, is_indication, is_pause, is_send, is_status, is_take, is_transmit, receive_room, send_room, EachAdds, EachBoundAdds, EachLowers, EachLowersWhileStill, EachPumpLowers, EachQuietAddsNothing};
ghost use Rattle.work_laws.specs.InPlace.{EachInPlace};

/// While a stack that has a binding isn't Halted, everything stands in its place: each list, status and
/// filter, and each request and answer.
pub fn everything_stands_in_place()
    ensures { EachInPlace }
{}

/// Each pump that is answered Moved lowers the work of a stack that has a binding.
pub fn pumps_lower_work()
    ensures { EachPumpLowers }
{}

/// Each drain that is answered Moved lowers the work of a stack that has a binding, but one in which the
/// miniport indicates what it transmits, which it does only while the stack runs.
pub fn drains_lower_work()
    ensures lowers { EachLowers Drain }
    ensures still { EachLowersWhileStill Drain }
{}

/// A send, also one from another stack, adds at most three times the miniport's position to the work.
pub fn sends_add_little()
    ensures { EachAdds is_send send_room }
{}

/// A list that the miniport indicates or lends adds at most three times the miniport's position, and as
/// much again for each echo binding while the stack runs.
pub fn indications_add_little()
    ensures { EachAdds is_indication receive_room }
{}

/// A status adds at most the miniport's position, a request less than twice that.
pub fn items_add_little()
    ensures status { EachAdds is_status (λ net. bottom net) }
    ensures ask { EachAdds is_ask (λ net. 2 * bottom net - 1) }
{}

/// A pause adds nothing to the work, and neither does a list that is taken to another stack.
pub fn pauses_add_nothing()
    ensures pause { EachAdds is_pause (λ net. 0) }
    ensures take { EachAdds is_take (λ net. 0) }
{}

/// A cancel adds nothing to the work of a stack that has a binding.
pub fn cancels_add_nothing()
    ensures { EachBoundAdds is_cancelling (λ net. 0) }
{}

/// In a stack that has a binding a list that is given back adds nothing to the work, and one that is done
/// in the other stack at most the miniport's position.
pub fn returns_add_little()
    ensures give_back { EachBoundAdds is_give_back (λ net. 0) }
    ensures done { EachBoundAdds is_done (λ net. bottom net) }
{}

/// In a stack that has a binding a transmit and a drain add at most as much as an indication, and a transmit
/// in which the miniport indicates nothing adds nothing.
pub fn transmits_add_little()
    ensures transmit { EachBoundAdds is_transmit receive_room }
    ensures drain { EachBoundAdds is_drain receive_room }
    ensures quiet { EachQuietAddsNothing is_transmit }
{}
