//! What becomes of the OID requests of a sound journal. There is no code here: each function's `ensures` is a
//! law, proved once for all journals.
#![tactic(auto)]

ghost use Rattle.serialization_laws.specs.Dones.{AllAreDone, AllAreGivenFirst, NoneIsBusy};

/// In every sound journal that ends Halted each request is done.
pub fn requests_are_done()
    ensures { AllAreDone }
{}

/// In every sound journal a request is given only to a module that has no other one, and before all with a
/// greater number that wait at the same place.
pub fn requests_are_given_in_order()
    ensures { AllAreGivenFirst }
{}

/// In every sound journal, where a row gives a request to a module, each request that earlier rows gave to
/// that module is done by an earlier row.
pub fn busy_modules_are_given_none()
    ensures { NoneIsBusy }
{}
