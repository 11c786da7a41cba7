// The rule of the table.
ghost use Rattle.turn_lock.specs.History.{ByStep};
ghost use Rattle.turn_lock.specs.Orderly.{Orderly, first_view};

use crate::turned::Turned;
use crate::view::{About, View};
use atomic_table::TableRule;
use std::marker::PhantomData;

pub struct InTurn<O> {
    object: PhantomData<O>,
}

impl<O: Turned> TableRule<Option<O>, View<O, O::Call, O::Reply>, About<O>> for InTurn<O> {
    ghost holds = { λ key. Orderly (ByStep O.fixed O.steps O.phase_of) O.phase_of key.object.value key.seats };

    ghost first = { λ key. first_view key.object.value key.seats };
}
