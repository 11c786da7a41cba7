//! At which places the drivers that a head takes were handed in. There is no code here: the function's
//! `ensures` is a law.
ghost use Rattle.std.specs.Prelude.{List};
ghost use Rattle.journal_types.specs.declared.StackHead.{StackHead};
ghost use Rattle.driver_views.specs.States.{MiniportState, ProtocolState};
ghost use Rattle.driver_choice.specs.Parts.{PartsView};
ghost use Rattle.driver_choice.specs.Chosen.{Takes};
ghost use Rattle.driver_choice.specs.Places.{StandAt};

/// The drivers that a head takes stand at the places that are promised.
pub fn takers_stand()
    ensures { (head : StackHead) (parts others : PartsView) (miniport : MiniportState) (protocols : List ProtocolState) → Takes head parts miniport protocols others → StandAt head parts miniport protocols }
{}
