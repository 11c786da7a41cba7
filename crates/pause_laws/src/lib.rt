//! A paused module holds nothing. There is no code here: each function's `ensures` is a law, proved
//! once for all sound journals.
#![tactic(auto)]

ghost use Rattle.std.specs.Prelude.{◌≡◌, List};
ghost use Rattle.ndis_base.specs.declared.Phase.TheVariants.{Halted, Paused};
ghost use Rattle.journal_types.specs.declared.StackHead.{StackHead};
ghost use Rattle.journal_types.specs.declared.Turn.{Turn};
ghost use Rattle.stack_rules.specs.Net.{seen};
ghost use Rattle.stack_rules.specs.Sound.{Sound};
ghost use Rattle.pause_laws.specs.Clear.{IsHeld};
ghost use Rattle.pause_laws.specs.Laws.{PausedHoldsNothing, NothingIsLive};

/// Where a module is Paused, nothing is outstanding at its position: no live list is its own, and
/// none stands there or above.
pub fn paused_holds_nothing()
    ensures { (head : StackHead) (turns : List Turn) → Sound head turns → PausedHoldsNothing (seen head turns) }
{}

/// While the stack is Paused no list is live.
pub fn paused_stack_is_empty()
    ensures { (head : StackHead) (turns : List Turn) → Sound head turns → (seen head turns).phase ≡ Paused → NothingIsLive (seen head turns) }
{}

/// While the stack is Halted no list is live.
pub fn halted_stack_is_empty()
    ensures { (head : StackHead) (turns : List Turn) → Sound head turns → (seen head turns).phase ≡ Halted → NothingIsLive (seen head turns) }
{}

/// The live lists have different numbers below the next one, and each is at the first position that
/// isn't Paused or below it, with its owner.
pub fn lists_are_below_the_front()
    ensures { (head : StackHead) (turns : List Turn) → Sound head turns → IsHeld (seen head turns) }
{}
