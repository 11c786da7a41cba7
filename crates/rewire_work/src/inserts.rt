//! A filter is inserted.
ghost use Rattle.std.specs.Prelude.{◌≡◌, ◌+◌, ◌-◌, ◌≤◌, ◌<◌, ◌^◌, None, Some, IfOk, OnOk, OnErr, IfSome, OnSome, length, map, find, insert};
ghost use Rattle.std.specs.Vec.{vec_len, vec_capacity};
ghost use Rattle.journal_types.specs.declared.Event.TheVariants as event;
ghost use Rattle.flat_journal.specs.Payloads.{setup_at};
ghost use Rattle.flat_journal.specs.Shown.{reply_of};
ghost use Rattle.flat_journal.specs.Within.{ReplyWithin, SetupWithin};
ghost use Rattle.driver_tray.specs.Tray.{TrayView};
ghost use Rattle.book_lemmas.specs.Views.{seat_of};
ghost use Rattle.book_parts.specs.Parts.{view_of};
ghost use Rattle.book_parts.specs.Events.{IsBook, IsIdle, DidEvent, IsUnmoved, CanEnd};
ghost use Rattle.rewire_work.specs.Refusals.{insert_refusal};
ghost use Rattle.rewire_work.specs.Rested.{IsAtRest, IsRoomed, IsReady};
ghost use Rattle.rewire_work.specs.Seated.{is_kind_at, attaching, reordered, Inserts};
ghost use Rattle.book_lemmas.specs.Shelves.{FollowsShelf};

use crate::quiet::{insert_refusal, live_count};
use crate::room::{make_room, write_attached, write_order};
use crate::seats::{attach_at, first_of_kind, place_of, seat, take_off};
use book_parts::BookParts;
use buffer_pools::ListPool;
use driver_calls::{AttachFault, FilterCalls, MiniportCalls, ProtocolCalls};
use driver_tray::Tray;
use flat_journal::{FlatReply, SetupNo, copied_setup};
use journal_types::Refusal;
use ndis_base::{FilterKind, OutOfMemory};
use std::alloc::Global;

const MAX_FRAME: usize = 1518;

const FAR: u64 = 1 << 60;

/// The order with a filter more.
fn longer_order(alloc: Global, order: &[u64], position: u8, f: u64) -> Result<Vec<u64>, OutOfMemory>
    requires above { 1 ≤ position }
    requires within { position ≤ length order.now + 1 }
    ensures { IfOk result (λ v. v.items ≡ insert order.now (position - 1) f) }
{
    let mut longer = Vec::from_slice(alloc, order)?;
    longer.insert(position as usize - 1, f)?;
    Ok(longer)
}

/// The number of the filter that is attached next; None where a number has come to 2 to the power of 60,
/// which no run can reach, or where a filter of the number is seated, which none is.
pub fn next_number(tray: &Tray, seats: &[(u64, usize)]) -> Option<u64>
    ensures number { IfSome result (λ f. f ≡ tray.now.net.next.filter) }
    ensures low { IfSome result (λ f. f < 2 ^ 60) }
    ensures config { OnSome result (tray.now.net.modules.config < 2 ^ 60) }
    ensures free { IfSome result (λ f. seat_of seats.now f ≡ None) }
{
    let f = tray.next_filter();
    if f >= FAR || tray.config().0 >= FAR || place_of(seats, f).is_some() {
        return None;
    }
    Some(f)
}

/// Attaches the driver at a place of the shelf as the next filter. After want of memory nothing has changed.
fn insert_at<M: MiniportCalls, P: ProtocolCalls, F: FilterCalls>(
    book: &mut BookParts<M, P, F>,
    alloc: Global,
    kind: FilterKind,
    position: u8,
    setup: SetupNo,
    place: usize,
) -> Result<FlatReply, OutOfMemory>
    requires book { IsBook (view_of M.state P.state F.state book.old) }
    requires idle { IsIdle (view_of M.state P.state F.state book.old) }
    requires rest { IsAtRest (view_of M.state P.state F.state book.old).tray.net }
    requires ready { IsReady (view_of M.state P.state F.state book.old).tray }
    requires seat { vec_len book.old.seats < vec_capacity book.old.seats }
    requires setup { SetupWithin (view_of M.state P.state F.state book.old).tray.payloads setup }
    requires quiet { insert_refusal (view_of M.state P.state F.state book.old).tray.net position ≡ None }
    requires place { find (is_kind_at kind (view_of M.state P.state F.state book.old).held.filters) (view_of M.state P.state F.state book.old).held.shelf ≡ Some place }
    ensures done { IfOk result (λ r. Inserts kind position (setup_at (view_of M.state P.state F.state book.old).tray.payloads.setups setup) place (view_of M.state P.state F.state book.old) (view_of M.state P.state F.state book.new) r) }
    ensures memory { OnErr result (view_of M.state P.state F.state book.new ≡ view_of M.state P.state F.state book.old) }
{
    let Some(f) = next_number(&book.tray, book.seats.as_slice()) else {
        return Err(OutOfMemory);
    };
    let copy = copied_setup(alloc, book.tray.setup(setup))?;
    let pool = ListPool::make(alloc, copy.pool, MAX_FRAME)?;
    let order = longer_order(alloc, book.tray.order(), position, f)?;
    match attach_at(&mut book.filters, place, alloc, copy) {
        Ok(()) => {
            take_off(&mut book.shelf, place);
            seat(&mut book.seats, &mut book.filter_pools, f, place, pool);
            book.tray.tell_inserted(kind, position, setup);
            write_attached(&mut book.tray, f);
            write_order(&mut book.tray, &order);
            Ok(FlatReply::Inserted { filter: f })
        }
        Err(AttachFault::Refused) => Ok(FlatReply::Refused(Refusal::AttachRefused)),
        Err(AttachFault::Memory) => Err(OutOfMemory),
    }
}

/// Inserts a filter of a kind at a position from 1 on, from the top (WDK, "Inserting a Filter Module"). The
/// journal has its set-up. It takes the first driver of the kind that stands on the shelf; a stack that isn't
/// Paused, or that has something on its way, refuses.
pub fn insert<M: MiniportCalls, P: ProtocolCalls, F: FilterCalls>(
    book: &mut BookParts<M, P, F>,
    alloc: Global,
    kind: FilterKind,
    position: u8,
    setup: SetupNo,
) -> Result<FlatReply, OutOfMemory>
    requires book { IsBook (view_of M.state P.state F.state book.old) }
    requires idle { IsIdle (view_of M.state P.state F.state book.old) }
    requires setup { SetupWithin (view_of M.state P.state F.state book.old).tray.payloads setup }
    ensures did { IfOk result (λ r. DidEvent (view_of M.state P.state F.state book.old) (view_of M.state P.state F.state book.new) (event.Insert kind position (setup_at (view_of M.state P.state F.state book.old).tray.payloads.setups setup)) (reply_of (view_of M.state P.state F.state book.new).tray.payloads r)) }
    ensures shelf { IfOk result (λ r. FollowsShelf (view_of M.state P.state F.state book.old) (view_of M.state P.state F.state book.new) (event.Insert kind position (setup_at (view_of M.state P.state F.state book.old).tray.payloads.setups setup)) (reply_of (view_of M.state P.state F.state book.new).tray.payloads r)) }
    ensures within { IfOk result (λ r. ReplyWithin (view_of M.state P.state F.state book.new).tray.payloads r) }
    ensures turn { OnOk result (CanEnd (view_of M.state P.state F.state book.new)) }
    ensures memory { OnErr result (IsUnmoved (view_of M.state P.state F.state book.old) (view_of M.state P.state F.state book.new)) }
{
    let Some(live) = live_count(&book.tray) else {
        return Err(OutOfMemory);
    };
    make_room(&mut book.tray, &mut book.seats)?;
    if let Some(cause) = insert_refusal(&book.tray, live, position) {
        return Ok(FlatReply::Refused(cause));
    }
    let Some(place) = first_of_kind(book.filters.as_slice(), book.shelf.as_slice(), kind) else {
        return Ok(FlatReply::Refused(Refusal::ShelfEmpty));
    };
    insert_at(book, alloc, kind, position, setup, place)
}
