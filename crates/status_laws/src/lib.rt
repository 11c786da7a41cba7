//! What the rows of a sound journal tell of the statuses that are on their way. There is no code here: each
//! function's `ensures` is a law, proved once for all journals.
#![tactic(auto)]

ghost use Rattle.status_laws.specs.Handlers.{EachGoesToHandler};
ghost use Rattle.status_laws.specs.Standing.{EachStatusStands};

/// After every sound journal each status on its way has a Status row with its number, its name and where it
/// goes; while the stack is Halted none is on its way.
pub fn statuses_stand()
    ensures { EachStatusStands }
{}

/// After every sound journal each status on its way goes to a filter of the configuration that has the status
/// handler, or to the bindings.
pub fn statuses_go_to_handlers()
    ensures { EachGoesToHandler }
{}
