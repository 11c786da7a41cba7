//! What the drivers may choose is all that is free in a sound journal. There is no code here: each
//! function's `ensures` is a law, proved once for all journals.
#![tactic(auto)]

ghost use Rattle.choice_laws.specs.Choices.{EachHasChoices, ChoicesDetermine};

/// In every sound journal each turn is the one that the rules give for its event and some choice of the
/// drivers.
pub fn journals_have_choices()
    ensures { EachHasChoices }
{}

/// Two sound journals of one head, in which the same events are asked by the same callers and the drivers
/// choose the same, are one journal.
pub fn choices_determine_journals()
    ensures { ChoicesDetermine }
{}
