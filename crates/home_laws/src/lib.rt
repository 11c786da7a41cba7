//! What holds of the lists of each sound journal: each is issued once, comes home at most once and to
//! its owner, is named by no row after that, and keeps its frames.
#![tactic(auto)]

ghost use Rattle.std.specs.Prelude.{◌++◌, List};
ghost use Rattle.home_laws.specs.Homes.{EachHomeAtOwner, EachHomeOnce, EachIssuedOnce, EachNamedAfterIssue, EachOriginOut, EachShowsIssued};
ghost use Rattle.home_laws.specs.Rows.{rows_of};
ghost use Rattle.home_laws.specs.Standing.{ListsStand};
ghost use Rattle.journal_types.specs.declared.StackHead.{StackHead};
ghost use Rattle.journal_types.specs.declared.Turn.{Turn};
ghost use Rattle.stack_rules.specs.Sound.{Sound};

/// Each list is issued once, rows name it only after that, and a clone or a copy is made of a list that
/// was issued and isn't home.
pub fn lists_issued_once()
    ensures once { (head : StackHead) (turns : List Turn) → Sound head turns → EachIssuedOnce (rows_of turns) }
    ensures first { (head : StackHead) (turns : List Turn) → Sound head turns → EachNamedAfterIssue (rows_of turns) }
    ensures origin { (head : StackHead) (turns : List Turn) → Sound head turns → EachOriginOut (rows_of turns) }
{}

/// Each list comes home at most once, after it was issued and to the owner that it was issued by, and
/// no row names it afterwards.
pub fn lists_home_once()
    ensures once { (head : StackHead) (turns : List Turn) → Sound head turns → EachHomeOnce (rows_of turns) }
    ensures at_owner { (head : StackHead) (turns : List Turn) → Sound head turns → EachHomeAtOwner (rows_of turns) }
{}

/// On the wire, at a binding and in another stack, a list's frames are those that it was issued with.
pub fn frames_as_issued()
    ensures { (head : StackHead) (turns : List Turn) → Sound head turns → EachShowsIssued (rows_of turns) }
{}

/// After each turn the live lists are those that were issued and aren't home, under numbers that differ
/// and lie below the next one.
pub fn lists_stand()
    ensures { (head : StackHead) (turns more : List Turn) → Sound head (turns ++ more) → ListsStand head turns }
{}
