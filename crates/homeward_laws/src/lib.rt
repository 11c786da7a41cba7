//! Where a list goes on its way home, who owns a list, and which modules a list goes to. There is no code here: each function's `ensures` is a
//! law, proved once for all journals.
#![tactic(auto)]

ghost use Rattle.homeward_laws.specs.Homeward.{EachGoesHome, EachIsOwned, EachIsBound};

/// A list on its way home goes to its owner, or to a filter of the order that has the pair that the list passed.
pub fn lists_go_home()
    ensures { EachGoesHome }
{}

/// Each list's owner is a module of the configuration: a filter, or for a list that goes down a binding, for any
/// other one the miniport.
pub fn owners_are_there()
    ensures { EachIsOwned }
{}

/// A list on its way to a module goes to one of the configuration, by a way that leads there: by any way to a filter,
/// as a done send to a binding, as a send down or a receive back to the miniport.
pub fn targets_are_there()
    ensures { EachIsBound }
{}
