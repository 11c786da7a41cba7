//! The states of a stack's modules in each phase, after every sound journal. There is no code here:
//! each function's `ensures` is a law, proved once for all journals.
#![tactic(auto)]

ghost use Rattle.std.specs.Prelude.{◌≡◌, List};
ghost use Rattle.ndis_base.specs.declared.ModuleState.TheVariants as state;
ghost use Rattle.ndis_base.specs.declared.Phase.TheVariants as phase;
ghost use Rattle.journal_types.specs.declared.StackHead.{StackHead};
ghost use Rattle.journal_types.specs.declared.Turn.{Turn};
ghost use Rattle.stack_rules.specs.Net.{seen};
ghost use Rattle.stack_rules.specs.Sound.{Sound};
ghost use Rattle.state_laws.specs.Shape.{IsShaped};
ghost use Rattle.state_laws.specs.Laws.{AllAre, PausedFromTheTop, RunsAsItsBindings};

/// After every sound journal the modules' states are those of the stack's phase: while it pauses the
/// positions from the top are Paused one by one, and while it restarts those from the bottom run.
pub fn states_fit_the_phase()
    ensures { (head : StackHead) (turns : List Turn) → Sound head turns → IsShaped (seen head turns) }
{}

/// While the stack is Paused each module is.
pub fn paused_together()
    ensures { (head : StackHead) (turns : List Turn) → Sound head turns → (seen head turns).phase ≡ phase.Paused → AllAre state.Paused (seen head turns) }
{}

/// While the stack is Running each module is.
pub fn running_together()
    ensures { (head : StackHead) (turns : List Turn) → Sound head turns → (seen head turns).phase ≡ phase.Running → AllAre state.Running (seen head turns) }
{}

/// The stack is Running exactly while its bindings are.
pub fn runs_as_its_bindings()
    ensures { (head : StackHead) (turns : List Turn) → Sound head turns → RunsAsItsBindings (seen head turns) }
{}

/// What is above a module that is Paused is Paused too.
pub fn paused_from_the_top()
    ensures { (head : StackHead) (turns : List Turn) → Sound head turns → PausedFromTheTop (seen head turns) }
{}
