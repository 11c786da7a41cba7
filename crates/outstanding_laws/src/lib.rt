//! How many lists a position of a stack has outstanding, by what is in hand. There is no code here: each
//! function's `ensures` is a law, proved once for all journals.
#![tactic(auto)]

ghost use Rattle.outstanding_laws.specs.Outstanding.{EachIsPassed, EachIsAtItsWay, EachIsKeptApart, EachIsInHand};

/// A list on its way up or done was last with the miniport or a filter of the order that has the pair, and goes to
/// the next target from there.
pub fn lists_are_passed_on()
    ensures { EachIsPassed }
{}

/// Where a list on its way is follows from its way and its target alone: no one needs to know who had it last.
pub fn positions_are_told()
    ensures { EachIsAtItsWay }
{}

/// Each list's owner is a module of the configuration, and no module at the owner's position keeps the list.
pub fn keepers_are_apart()
    ensures { EachIsKeptApart }
{}

/// While a stack pauses, what the first position that isn't Paused has outstanding is the sum of what its modules own
/// and keep, and of the lists of other owners on their way that are at that position.
pub fn outstanding_is_in_hand()
    ensures { EachIsInHand }
{}
