// The calls of a lock.
ghost use Rattle.std.specs.Prelude.{◌≡◌, ◌+◌, ◌<◌, ◌≤◌, ◌≢◌, ◌^◌, true, [], ◌∷◌, Option, Some, IfOk, IfErr, All};
ghost use Rattle.turn_lock.specs.declared.view.Role.TheVariants.{Idle, Waits, Serves};
ghost use Rattle.turn_lock.specs.History.{StartsWith, ByStep, phase_numbered};
ghost use Rattle.turn_lock.specs.Account.{IsOf, account_of, seats_of, opening_of, first_account, after_split, newcomer_account, joined, numbers_of, AreApart, Makes, Sees, Closes};
ghost use Rattle.turn_lock.specs.Plays.{with_role, Holds, Takes, Serves_call, IsReady, served, no_step};

use crate::plays::{Draw, Look, Name, Part, Said, Serve, Settle, Tell, Try};
use crate::seat::{Place, Seat, SeatAt};
use crate::table::TurnLock;
use crate::turned::Turned;
use crate::view::About;
use atomic_table::{Refused, Table};
use ndis_base::{Front, OutOfMemory, Phase};
use std::alloc::Global;
use std::marker::Brand;
use std::snapshot::Snapshot;
use std::sync::Wait;

// No turn is taken past this many, so that a front fits a word.
const MOST: u64 = 1 << 60;

fn phase_at(number: u64) -> Phase
    requires { number < 8 }
    ensures { result ≡ phase_numbered number }
{
    match number {
        0 => Phase::Halted,
        1 => Phase::Paused,
        2 => Phase::Restarting,
        3 => Phase::Running,
        _ => Phase::Pausing,
    }
}

impl<O: Turned> TurnLock<O> {
    /// Locks an object, for at most `seats` seats at one time. The first seat has number 0 and all parts.
    /// Where memory runs out the object comes back.
    pub fn make(
        alloc: Global,
        object: O,
        seats: usize,
    ) -> Result<(TurnLock<O>, Seat<O>), (O, OutOfMemory)>
        requires { (0 < seats) × (seats ≤ 65536) }
        ensures lock { IfOk result (λ made. IsOf made.0 made.1 × (seats_of made.0 ≡ seats) × (opening_of made.0 ≡ object)) }
        ensures seat { IfOk result (λ made. account_of made.1 ≡ first_account seats) }
        ensures err { IfErr result (λ refused. refused.0 ≡ object) }
    {
        let front = object.phase() as u64;
        let about = About {
            object: Snapshot::of(&object),
            seats,
        };
        let Ok(mut slots) = Vec::with_capacity(alloc, 1) else {
            return Err((object, OutOfMemory));
        };
        slots.push_reserved(Some(object));
        match Table::new(alloc, &[0, front], slots, &about) {
            Ok((table, place)) => Ok((TurnLock { table }, SeatAt::of(place))),
            Err(Refused { mut slots }) => {
                let object = slots.pop().unwrap().unwrap();
                slots.destroy_empty();
                Err((object, OutOfMemory))
            }
        }
    }

    /// Makes one call, when the turns of all earlier tickets are over; it may wait for them. A call that answers
    /// `OutOfMemory` is an entry of the history too. Past 2^60 turns it waits for ever.
    pub fn turn<R: Wait>(
        &self,
        rt: &R,
        seat: &mut Seat<O>,
        call: O::Call,
    ) -> Result<O::Reply, OutOfMemory>
        requires lock { IsOf self.now seat.old }
        requires fits { O.fits (O.fixed (opening_of self.now)) call }
        ensures lock { IsOf self.now seat.new }
        ensures turn { Makes (ByStep O.fixed O.steps O.phase_of) (opening_of self.now) call result (account_of seat.old) (account_of seat.new) }
    {
        let ticket = self.draw(&mut seat.place);
        self.wait(rt, &mut seat.place, ticket);
        self.serve(&mut seat.place, ticket, call)
    }

    /// The front, as this one load finds it. It waits for nobody and takes no memory.
    pub fn look(&self, seat: &mut Seat<O>) -> Front
        requires lock { IsOf self.now seat.old }
        ensures lock { IsOf self.now seat.new }
        ensures front { Sees (ByStep O.fixed O.steps O.phase_of) O.phase_of (opening_of self.now) result (account_of seat.old) (account_of seat.new) }
    {
        let found = self.table.shared.load::<Look<O>>(&mut seat.place, 1);
        Front {
            turns: found / 8,
            phase: phase_at(found % 8),
        }
    }

    /// A new seat, with one part, a number of its own, and all that this seat has seen.
    pub fn split(&self, seat: &mut Seat<O>) -> Seat<O>
        requires lock { IsOf self.now seat.old }
        requires parts { 1 < (account_of seat.old).parts }
        ensures lock { IsOf self.now seat.new × IsOf self.now result }
        ensures old { account_of seat.new ≡ after_split (account_of seat.old) (account_of result).number }
        ensures new { account_of result ≡ newcomer_account (account_of seat.old) (account_of result).number }

        // The new number is neither the old seat's nor one that it knows.
        ensures number { All (λ n. n ≢ (account_of result).number) ((account_of seat.old).number ∷ (account_of seat.old).known) }
    {
        let mut place = self.table.shared.split_seat::<Part>(&mut seat.place);
        self.table.shared.load::<Name>(&mut place, 0);
        let note = self.table.shared.split_seat::<Tell>(&mut place);
        self.table.shared.join_seat::<Tell>(&mut seat.place, note);
        SeatAt::of(place)
    }

    /// Takes in another seat, which is then an ended one.
    pub fn join(&self, seat: &mut Seat<O>, other: Seat<O>)
        requires lock { IsOf self.now seat.old × IsOf self.now other }
        ensures lock { IsOf self.now seat.new }
        ensures account { account_of seat.new ≡ joined (account_of seat.old) (account_of other) }

        // What both have seen begins one history, and the numbers that the seat now has are different.
        ensures seen { StartsWith (account_of seat.new).seen (account_of seat.old).seen × StartsWith (account_of seat.new).seen (account_of other).seen }
        ensures numbers { AreApart (numbers_of (account_of seat.new)) }
    {
        let place = other.into_place();
        self.table.shared.join_seat::<Part>(&mut seat.place, place);
        self.table.shared.load::<Settle>(&mut seat.place, 0);
    }

    /// The object after the whole history, once one seat has every part.
    pub fn close(self, seat: Seat<O>) -> O
        requires lock { IsOf self seat }
        requires parts { (account_of seat).parts ≡ seats_of self }
        ensures object { Closes (ByStep O.fixed O.steps O.phase_of) (opening_of self) (account_of seat) result }
        ensures fixed { O.fixed result ≡ O.fixed (opening_of self) }
    {
        let TurnLock { table } = self;
        let place = seat.into_place();
        let mut closed = table.close_with(place);
        let object = closed.take(0).unwrap();
        closed.free();
        object
    }

    fn draw(&self, seat: &mut Place<O>) -> u64
        requires lock { seat.old.table_id ≡ self.now.table.shared.table_id }
        requires live { (seat.old.me.0.live ≡ true) × (seat.old.me.0.named ≡ true) }
        requires idle { (seat.old.me.0.role ≡ Idle) × (0 < seat.old.me.0.parts) × (seat.old.me.1 ≡ []) }
        ensures same { (seat.new.table_id ≡ seat.old.table_id) × (seat.new.id ≡ seat.old.id) }
        ensures view { seat.new.me ≡ (with_role seat.old.me.0 (Waits result), []) }
    {
        self.table.shared.fetch_add::<Draw>(seat, 0, 1)
    }

    fn wait<R: Wait>(&self, rt: &R, seat: &mut Place<O>, ticket: u64)
        requires lock { seat.old.table_id ≡ self.now.table.shared.table_id }
        requires live { (seat.old.me.0.live ≡ true) × (seat.old.me.0.named ≡ true) }
        requires waits { (seat.old.me.0.role ≡ Waits ticket) × (seat.old.me.1 ≡ []) }
        ensures same { (seat.new.table_id ≡ seat.old.table_id) × (seat.new.id ≡ seat.old.id) }
        ensures view { Takes (ByStep O.fixed O.steps O.phase_of) ticket seat.old.me.0 seat.new.me }
    {
        for _ in rt.forever() {
            let front = self.table.shared.load::<Try<O>>(seat, 1);
            if front / 8 == ticket && ticket < MOST {
                return;
            }
        }
        unreachable!()
    }

    fn serve(
        &self,
        seat: &mut Place<O>,
        ticket: u64,
        call: O::Call,
    ) -> Result<O::Reply, OutOfMemory>
        requires lock { seat.old.table_id ≡ self.now.table.shared.table_id }
        requires live { (seat.old.me.0.live ≡ true) × (seat.old.me.0.named ≡ true) }
        requires holds { Holds ticket seat.old.me }
        requires call { (object : O) → seat.old.me.0.role ≡ Serves ticket object → O.fits (O.fixed object) call }
        requires few { ticket < 2 ^ 60 }
        ensures same { (seat.new.table_id ≡ seat.old.table_id) × (seat.new.id ≡ seat.old.id) }
        ensures view { Serves_call (ByStep O.fixed O.steps O.phase_of) ticket call result seat.old.me.0 seat.new.me }
    {
        let shared = &self.table.shared;
        let mut object = shared.exchange(seat, 0, None).unwrap();
        let said = Snapshot::of(&call);
        let reply = object.step(call);
        let answered = Snapshot::of(&reply);
        let phase = object.phase();
        let front = (ticket + 1) * 8 + phase as u64;
        let emptied = shared.exchange(seat, 0, Some(object));
        let None = emptied else { unreachable!() };
        self.finish::<Brand>(seat, front, &said, &answered, phase);
        reply
    }

    // Stores the front, and tells the entry of the turn.
    fn finish<J: Said<O::Call, O::Reply>>(
        &self,
        seat: &mut Place<O>,
        front: u64,
        _said: &Snapshot<O::Call>,
        _answered: &Snapshot<Result<O::Reply, OutOfMemory>>,
        _phase: Phase,
    )
        requires lock { seat.old.table_id ≡ self.now.table.shared.table_id }
        requires live { (seat.old.me.0.live ≡ true) × (seat.old.me.0.named ≡ true) }
        requires ready { IsReady (ByStep O.fixed O.steps O.phase_of) J.entry front seat.old.me }
        ensures same { (seat.new.table_id ≡ seat.old.table_id) × (seat.new.id ≡ seat.old.id) }
        ensures view { served J.entry no_step seat.old.me front seat.new.me }
    {
        self.table.shared.store::<Serve<O, J>>(seat, 1, front);
    }
}
