//! How often a sound journal calls each module's driver, and what it logs: what is promised of the whole journal
//! is what the states before its rows tell, turn by turn. There is no code here: each function's `ensures` is a
//! law, proved once for all journals.
#![tactic(auto)]

ghost use Rattle.served_laws.specs.Served.{EachAddsCalls, EachAddsLogs, EachIsLogged, EachIsServed};

/// The calls of a module's driver that a sound journal counts, each looked up in the whole journal, are those that
/// its rows stand for, each by the state before its row.
pub fn journals_are_served()
    ensures { EachIsServed }
{}

/// The log of a module that a journal gathers turn by turn is what its rows log one after the other.
pub fn journals_are_logged()
    ensures { EachIsLogged }
{}

/// More turns add the calls that they stand for from the state in which they begin.
pub fn turns_add_calls()
    ensures { EachAddsCalls }
{}

/// More turns add what their rows log.
pub fn turns_add_logs()
    ensures { EachAddsLogs }
{}
