//! The loops of a run end, turn by turn: opening a stack, pumping it until nothing moves, pausing it with
//! drains, and halting it. There is no code here: each function's `ensures` is a law, proved once for all
//! journals of all stacks that have a binding.
#![tactic(auto)]

ghost use Rattle.journal_types.specs.declared.Event.TheVariants.{BeginPause, Halt, Initialize, PauseNext, RestartNext};
ghost use Rattle.stack_rules.specs.Tests.{phase_is_halted, phase_is_paused, phase_is_pausing, phase_is_running};
ghost use Rattle.run_laws.specs.Turns.{EachTurn};
ghost use Rattle.run_laws.specs.Opening.{Initializes, Restarts, Rewires};
ghost use Rattle.run_laws.specs.Pumping.{Pumps};
ghost use Rattle.run_laws.specs.Pausing.{Begins, Drains, Pauses};
ghost use Rattle.run_laws.specs.Ending.{EmptiesRequests, EmptiesThings, Halts, IsBusy, KeepsNoRequests};
ghost use Rattle.run_laws.specs.Wrong.{may_restart, NeedsPhase};
ghost use Rattle.run_laws.specs.Calls.{Stays};
ghost use Rattle.run_laws.specs.Crossing.{DoneIsBack, KeepsNoneIn, KeepsUncrossed, NoneCrossedWhereDone, NoneCrossUntaken};

/// A Halted stack is initialised, or its adapter refuses and nothing changes (WDK, "Initializing a Miniport
/// Driver"). A restart that doesn't end leaves fewer positions to restart (WDK, "Restarting a Driver Stack").
/// Filters are inserted, removed and replaced without a change of the phase.
pub fn openings_end()
    ensures initialize { EachTurn Initializes }
    ensures restart { EachTurn Restarts }
    ensures rewire { EachTurn Rewires }
{}

/// A pump moves something and leaves less to do, or it changes nothing.
pub fn pumps_end()
    ensures { EachTurn Pumps }
{}

/// A stack that runs begins to pause. A step of the pause goes on to the next position and leaves less to do,
/// or the stack is Paused, or it waits for what is left; then a drain leaves less to do (WDK, "Pausing a
/// Driver Stack").
pub fn pauses_end()
    ensures begin { EachTurn Begins }
    ensures pause { EachTurn Pauses }
    ensures drain { EachTurn Drains }
{}

/// A Paused stack is halted where no status is on its way and no request is left, else it stays as it is (WDK,
/// "Halting a Miniport Adapter").
pub fn paused_stacks_halt()
    ensures done { EachTurn Halts }
    ensures busy { EachTurn IsBusy }
{}

/// Where a pump is idle no request is left, unless the stack is Paused or Halted; then none comes by what ends
/// a run; and where a pump is idle while the stack is Paused nothing is on its way. So a stack that is pumped
/// while it runs, paused and pumped again can be halted.
pub fn idle_pumps_lead_to_the_end()
    ensures requests { EachTurn EmptiesRequests }
    ensures none { EachTurn KeepsNoRequests }
    ensures things { EachTurn EmptiesThings }
{}

/// An event that is asked in the wrong phase is refused and changes nothing.
pub fn wrong_phases_change_nothing()
    ensures initialize { EachTurn (NeedsPhase Initialize phase_is_halted) }
    ensures restart { EachTurn (NeedsPhase RestartNext may_restart) }
    ensures begin { EachTurn (NeedsPhase BeginPause phase_is_running) }
    ensures pause { EachTurn (NeedsPhase PauseNext phase_is_pausing) }
    ensures halt { EachTurn (NeedsPhase Halt phase_is_paused) }
{}

/// A call leaves the phase and the modules as they are.
pub fn calls_keep_the_phase()
    ensures { EachTurn Stays }
{}

/// No list crosses to another stack unless it is taken.
pub fn none_cross_untaken()
    ensures journal { NoneCrossUntaken }
    ensures turn { KeepsUncrossed }
{}

/// A list is with another stack from the turn that takes it until its message is done there (WDK, "NDIS MUX
/// Intermediate Drivers"): where each message is done, no list has crossed.
pub fn taken_lists_come_back()
    ensures kept { KeepsNoneIn }
    ensures done { DoneIsBack }
    ensures journal { NoneCrossedWhereDone }
{}
