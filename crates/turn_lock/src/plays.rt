// What each step tells its seat.
ghost use Rattle.std.specs.Prelude.{Option, None};
ghost use Rattle.turn_lock.specs.declared.view.Entry.{Entry};
ghost use Rattle.turn_lock.specs.History.{ByStep};
ghost use Rattle.turn_lock.specs.Orderly.{parent, newcomer, both, spent, note, told};
ghost use Rattle.turn_lock.specs.Plays.{drawn, looked, tried, served, has_number, settled};

use crate::turned::Turned;
use crate::view::View;
use atomic_table::{Join, Play, Split};
use std::marker::{Brand, PhantomData};

/// A ticket is drawn.
pub struct Draw;

impl<O, C, R> Play<Option<O>, View<O, C, R>> for Draw {
    ghost then = { drawn };
}

/// The front is loaded by a look.
pub struct Look<O> {
    object: PhantomData<O>,
}

impl<O: Turned> Play<Option<O>, View<O, O::Call, O::Reply>> for Look<O> {
    ghost then = { looked (ByStep O.fixed O.steps O.phase_of) O.phase_of };
}

/// The front is loaded by a seat that waits, which takes the object where its ticket is served.
pub struct Try<O> {
    object: PhantomData<O>,
}

impl<O: Turned> Play<Option<O>, View<O, O::Call, O::Reply>> for Try<O> {
    ghost then = { tried (ByStep O.fixed O.steps O.phase_of) O.phase_of };
}

/// The entry of the turn that is stored. Each call of `finish` picks it.
pub trait Said<C, R> {
    ghost entry: { Option (Entry C R) };
}

impl<C, R> Said<C, R> for Brand {
    ghost entry = { None };
}

/// The front is stored, and the object given back.
pub struct Serve<O, J> {
    object: PhantomData<(O, J)>,
}

impl<O: Turned, J: Said<O::Call, O::Reply>> Play<Option<O>, View<O, O::Call, O::Reply>>
    for Serve<O, J> {
    ghost then = { served J.entry };
}

/// The load of word 0 by which a new seat gets its number.
pub struct Name;

impl<O, C, R> Play<Option<O>, View<O, C, R>> for Name {
    ghost then = { has_number };
}

/// The load of word 0 by which a seat learns what its join says of the other.
pub struct Settle;

impl<O, C, R> Play<Option<O>, View<O, C, R>> for Settle {
    ghost then = { settled };
}

/// A seat is split off, and a seat is joined.
pub struct Part;

impl<O, C, R> Split<View<O, C, R>> for Part {
    ghost left = { parent };

    ghost right = { newcomer };
}

impl<O, C, R> Join<View<O, C, R>> for Part {
    ghost both = { both };

    ghost spent = { spent };
}

/// A note that tells a seat's number.
pub struct Tell;

impl<O, C, R> Split<View<O, C, R>> for Tell {
    ghost left = { λ v. v };

    ghost right = { note };
}

impl<O, C, R> Join<View<O, C, R>> for Tell {
    ghost both = { told };

    ghost spent = { spent };
}
