//! What the laws of lists and of pauses say together: after each turn that leaves a stack Paused or
//! Halted, each list that was issued is home, once. There is no code here: each function's `ensures`
//! is a law, proved once for all sound journals.
#![tactic(auto)]

ghost use Rattle.std.specs.Prelude.{◌≡◌, ◌++◌, List};
ghost use Rattle.ndis_base.specs.declared.Phase.TheVariants.{Halted, Paused};
ghost use Rattle.journal_types.specs.declared.StackHead.{StackHead};
ghost use Rattle.journal_types.specs.declared.Turn.{Turn};
ghost use Rattle.stack_rules.specs.Net.{seen};
ghost use Rattle.stack_rules.specs.Sound.{Sound};
ghost use Rattle.home_laws.specs.Rows.{rows_of};
ghost use Rattle.ended_laws.specs.Ended.{EachIsHome, IsStanding};

/// After a turn that leaves the stack Paused each issued list has exactly one Home row.
pub fn each_is_home_when_paused()
    ensures { (head : StackHead) (turns more : List Turn) → Sound head (turns ++ more) → (seen head turns).phase ≡ Paused → EachIsHome (rows_of turns) }
{}

/// After a turn that leaves the stack Halted each issued list has exactly one Home row.
pub fn each_is_home_when_halted()
    ensures { (head : StackHead) (turns more : List Turn) → Sound head (turns ++ more) → (seen head turns).phase ≡ Halted → EachIsHome (rows_of turns) }
{}

/// What is known of the state after each turn: which states the modules are in, where the live lists
/// are, and that each has its Issue row and no Home row.
pub fn the_state_stands()
    ensures { (head : StackHead) (turns more : List Turn) → Sound head (turns ++ more) → IsStanding head turns }
{}
