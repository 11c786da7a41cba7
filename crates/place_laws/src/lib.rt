//! Where the lists, statuses and filters of a stack stand between its turns. There is no code here: each
//! function's `ensures` is a law, proved once for all journals.
#![tactic(auto)]

ghost use Rattle.place_laws.specs.Listed.{EachIsListed};

/// While a stack that has a binding isn't Halted, each list, status and filter stands where it may: each list
/// with its owner and, if it is a clone, with its original, each status on its way up.
pub fn lists_stand_in_place()
    ensures { EachIsListed }
{}
