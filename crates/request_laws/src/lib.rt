//! Where the requests of a stack stand between its turns. There is no code here: each function's
//! `ensures` is a law, proved once for all journals.
#![tactic(auto)]

ghost use Rattle.request_laws.specs.Requested.{EachIsRequested};

/// After every sound journal each request has a number of its own, a clone of a request waits or is
/// given below the filter that has its parent, and each answer goes to a filter that has the parent.
pub fn requests_stand_in_place()
    ensures { EachIsRequested }
{}
