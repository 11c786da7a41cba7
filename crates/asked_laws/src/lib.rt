//! Whose requests a stack has. There is no code here: the function's `ensures` is a law, proved once for all journals.
#![tactic(auto)]

ghost use Rattle.asked_laws.specs.Asked.{EachIsOfABinding};

/// After every sound journal each live request, a clone too, is of one of the stack's bindings.
pub fn requests_are_of_bindings()
    ensures { EachIsOfABinding }
{}
