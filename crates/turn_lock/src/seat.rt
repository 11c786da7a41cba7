// A seat between two calls.
ghost use Rattle.std.specs.Prelude.{◌≡◌, ◌<◌, true, []};
ghost use Rattle.turn_lock.specs.declared.view.Role.TheVariants.{Idle};

use crate::turned::Turned;
use crate::view::View;

pub(crate) type Place<O> = atomic_table::Seat<
    Option<O>,
    View<O, <O as Turned>::Call, <O as Turned>::Reply>,
>;

/// A seat of a lock whose object is an `O`, with calls `C` and replies `R`: the right to call the lock, which one
/// thread has at a time. Contracts see its account: a number, parts, loads, what it has seen, its own calls, and the
/// seats that were joined into it.
pub struct SeatAt<O, C, R> {
    pub(crate) place: atomic_table::Seat<Option<O>, View<O, C, R>>,
    // It gives a seat a size, so that the seats of a slice have places of their own.
    sized: u8,
    ghost idle: { place.me.0.role ≡ Idle },
    ghost empty: { place.me.1 ≡ [] },
    ghost live: { place.me.0.live ≡ true },
    ghost named: { place.me.0.named ≡ true },
    ghost part: { 0 < place.me.0.parts },
}

/// A seat of a lock whose object is an `O`.
pub type Seat<O> = SeatAt<O, <O as Turned>::Call, <O as Turned>::Reply>;

impl<O, C, R> Drop for SeatAt<O, C, R> {
    fn drop(self) {
        let Self { place: _, sized: _ } = self;
    }
}

impl<O, C, R> SeatAt<O, C, R> {
    pub(crate) fn of(place: atomic_table::Seat<Option<O>, View<O, C, R>>) -> SeatAt<O, C, R>
        requires idle { (place.me.0.role ≡ Idle) × (place.me.1 ≡ []) }
        requires live { (place.me.0.live ≡ true) × (place.me.0.named ≡ true) × (0 < place.me.0.parts) }
        ensures { result.place ≡ place }
    {
        SeatAt { place, sized: 0 }
    }

    pub(crate) fn into_place(self) -> atomic_table::Seat<Option<O>, View<O, C, R>>
        ensures { result ≡ self.place }
    {
        let Self { place, sized: _ } = self;
        place
    }
}
