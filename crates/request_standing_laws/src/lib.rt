//! What the rows of a sound journal tell of the OID requests that aren't done. There is no code here: the
//! function's `ensures` is a law, proved once for all journals.
#![tactic(auto)]

ghost use Rattle.request_standing_laws.specs.Standing.{EachRequestStands};

/// After every sound journal each live request has the row that issues it, the row that gives it where a
/// module has it, and no row by which it is done; each other number that was given out has such a row.
pub fn requests_stand()
    ensures { EachRequestStands }
{}
