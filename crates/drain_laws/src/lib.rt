//! A stack that pauses becomes empty: how many drains that takes. There is no code here: each function's
//! `ensures` is a law, proved once for all journals.
#![tactic(auto)]

ghost use Rattle.drain_laws.specs.Drains.{DrainsAreBounded, IdleIsEmpty, IdleWhereDone, PauseBegins, PausesInTime};
ghost use Rattle.drain_laws.specs.Resting.{ListsRest};
ghost use Rattle.drain_laws.specs.Serving.{RequestsAreServed};

/// After every sound journal each live list is on its way, or is kept by a module that has a reason to: a
/// hold filter or a filter that sent a clone of it, a binding of a retain protocol, or the miniport.
pub fn lists_rest()
    ensures { ListsRest }
{}

/// After every sound journal each request is at the entry, waits at a module that takes requests, or is given
/// to a filter and has a clone that isn't done or whose answer is on its way.
pub fn requests_are_served()
    ensures { RequestsAreServed }
{}

/// While a stack pauses, and nothing else is asked of it, no more drains move something than there was work
/// left at the beginning.
pub fn drains_are_bounded()
    ensures { DrainsAreBounded }
{}

/// While a stack pauses, and no list of it has crossed to another stack, a drain is idle exactly where no work
/// is left; then no list is live, no status or answer is on its way, and no request waits.
pub fn idle_drains_are_done()
    ensures empty { IdleIsEmpty }
    ensures done { IdleWhereDone }
{}

/// A stack pauses after each BeginPause that is accepted.
pub fn accepted_pauses_begin()
    ensures { PauseBegins }
{}

/// A pause that drains once each time it has to wait, and none of whose lists has crossed, ends in at most two
/// turns for each unit of the work and one for each position; none of them is refused and no drain is idle.
pub fn pauses_end_in_time()
    ensures { PausesInTime }
{}
