//! Which driver stands for which filter, by the journal: only changes of the filters and halts move drivers
//! between the shelf and the seats. There is no code here: each function's `ensures` is a law.
#![tactic(auto)]

ghost use Rattle.shelf_laws.specs.Shelves.{EachIsOnShelf, EachLeavesShelf, EachWasAttached};

/// Events that neither change the filters nor halt the stack leave the shelf.
pub fn events_leave_the_shelf()
    ensures { EachLeavesShelf }
{}

/// After such an event no filter is attached that wasn't attached before.
pub fn attached_filters_were_attached()
    ensures { EachWasAttached }
{}

/// While the stack is Halted each filter's driver stands on the shelf.
pub fn halted_filters_are_on_the_shelf()
    ensures { EachIsOnShelf }
{}
