//! Lists that are lent for the time of one turn. There is no code here: the function's `ensures` is a law,
//! proved once for all journals.
#![tactic(auto)]

ghost use Rattle.lent_laws.specs.Lent.{NoneIsLent};

/// After every sound journal no live list is lent: a lent list is home in its own turn.
pub fn none_is_lent()
    ensures { NoneIsLent }
{}
