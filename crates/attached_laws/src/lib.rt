//! Which filters a turn calls, and which drivers they have: only those that are attached as it begins are called, and
//! each has one driver. There is no code here: each function's `ensures` is a law, proved once for all journals.
#![tactic(auto)]

ghost use Rattle.attached_laws.specs.Attached.{EachCallsAttached};
ghost use Rattle.attached_laws.specs.Drivers.{EachHasOneDriver};

/// After a sound journal of a stack that has a binding, a turn that may come next calls no filter that isn't attached
/// as it begins.
pub fn turns_call_attached_filters()
    ensures { EachCallsAttached }
{}

/// In a sound journal no filter takes a driver twice.
pub fn filters_have_one_driver()
    ensures { EachHasOneDriver }
{}
