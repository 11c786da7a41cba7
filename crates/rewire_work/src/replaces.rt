//! A filter takes another's place.
ghost use Rattle.std.specs.Prelude.{◌≡◌, ◌<◌, ◌^◌, true, None, Some, IfOk, OnOk, OnErr, map, find};
ghost use Rattle.std.specs.Vec.{vec_len, vec_capacity};
ghost use Rattle.journal_types.specs.declared.Event.TheVariants as event;
ghost use Rattle.flat_journal.specs.Payloads.{setup_at};
ghost use Rattle.flat_journal.specs.Shown.{reply_of};
ghost use Rattle.flat_journal.specs.Within.{ReplyWithin, SetupWithin};
ghost use Rattle.stack_rules.specs.Rewires.{swapped};
ghost use Rattle.book_parts.specs.Parts.{view_of};
ghost use Rattle.book_parts.specs.Events.{IsBook, IsIdle, DidEvent, IsUnmoved, CanEnd};
ghost use Rattle.rewire_work.specs.Refusals.{rewire_refusal};
ghost use Rattle.rewire_work.specs.Rested.{IsAtRest, IsReady};
ghost use Rattle.rewire_work.specs.Seated.{is_kind_at, Replaces};
ghost use Rattle.book_lemmas.specs.Shelves.{FollowsShelf};

use crate::inserts::next_number;
use crate::quiet::{live_count, rewire_refusal};
use crate::room::{make_rooms, write_attached, write_order};
use crate::seats::{attach_at, detach_at, first_of_kind, place_of, rise, seat, take_off};
use book_parts::BookParts;
use buffer_pools::ListPool;
use driver_calls::{AttachFault, FilterCalls, MiniportCalls, ProtocolCalls};
use flat_journal::{FlatReply, SetupNo, copied_setup};
use journal_types::{PhaseOf, Refusal};
use ndis_base::{FilterKind, ModuleId, ModuleState, OutOfMemory};
use std::alloc::Global;

const MAX_FRAME: usize = 1518;

fn swapped(old: u64, new: u64, f: u64) -> u64
    ensures { result ≡ swapped old new f }
{
    if f == old { new } else { f }
}

/// The order with another filter in the place of one.
fn swapped_order(alloc: Global, order: &[u64], old: u64, new: u64) -> Result<Vec<u64>, OutOfMemory>
    ensures { IfOk result (λ v. v.items ≡ map (swapped old new) order.now) }
{
    let mut other = Vec::new(alloc);
    for f in order {
        other.push(swapped(old, new, *f))?;
    }
    Ok(other)
}

/// Attaches the driver at a place of the shelf as the next filter, and detaches another one, whose place in
/// the order it takes. After want of memory nothing has changed.
fn replace_at<M: MiniportCalls, P: ProtocolCalls, F: FilterCalls>(
    book: &mut BookParts<M, P, F>,
    alloc: Global,
    filter: u64,
    kind: FilterKind,
    setup: SetupNo,
    place: usize,
) -> Result<FlatReply, OutOfMemory>
    requires book { IsBook (view_of M.state P.state F.state book.old) }
    requires idle { IsIdle (view_of M.state P.state F.state book.old) }
    requires rest { IsAtRest (view_of M.state P.state F.state book.old).tray.net }
    requires ready { IsReady (view_of M.state P.state F.state book.old).tray }
    requires seat { vec_len book.old.seats < vec_capacity book.old.seats }
    requires shelf { vec_len book.old.shelf < vec_capacity book.old.shelf }
    requires setup { SetupWithin (view_of M.state P.state F.state book.old).tray.payloads setup }
    requires quiet { rewire_refusal (view_of M.state P.state F.state book.old).tray.net filter ≡ None }
    requires place { find (is_kind_at kind (view_of M.state P.state F.state book.old).held.filters) (view_of M.state P.state F.state book.old).held.shelf ≡ Some place }
    ensures done { IfOk result (λ r. Replaces filter kind (setup_at (view_of M.state P.state F.state book.old).tray.payloads.setups setup) place (view_of M.state P.state F.state book.old) (view_of M.state P.state F.state book.new) r) }
    ensures memory { OnErr result (view_of M.state P.state F.state book.new ≡ view_of M.state P.state F.state book.old) }
{
    let Some(new) = next_number(&book.tray, book.seats.as_slice()) else {
        return Err(OutOfMemory);
    };
    let Some(old) = place_of(book.seats.as_slice(), filter) else {
        unreachable!()
    };
    let copy = copied_setup(alloc, book.tray.setup(setup))?;
    let pool = ListPool::make(alloc, copy.pool, MAX_FRAME)?;
    let order = swapped_order(alloc, book.tray.order(), filter, new)?;
    match attach_at(&mut book.filters, place, alloc, copy) {
        Ok(()) => {
            take_off(&mut book.shelf, place);
            seat(&mut book.seats, &mut book.filter_pools, new, place, pool);
            detach_at(&mut book.filters, old);
            rise(&mut book.seats, &mut book.shelf, filter, old);
            book.tray.tell_replaced(filter, kind, setup);
            book.tray.write_phase(PhaseOf::Module(ModuleId::Filter(filter), ModuleState::Detached));
            write_attached(&mut book.tray, new);
            write_order(&mut book.tray, &order);
            Ok(FlatReply::Replaced { filter: new })
        }
        Err(AttachFault::Refused) => Ok(FlatReply::Refused(Refusal::AttachRefused)),
        Err(AttachFault::Memory) => Err(OutOfMemory),
    }
}

/// Puts a new filter of a kind in the place of one in the configuration (WDK, "Inserting a Filter Module" and
/// "Removing a Filter Module"). The journal has its set-up. It takes the first driver of the kind that stands
/// on the shelf, and then the driver of the one that it replaces goes to the shelf's end.
pub fn replace<M: MiniportCalls, P: ProtocolCalls, F: FilterCalls>(
    book: &mut BookParts<M, P, F>,
    alloc: Global,
    filter: u64,
    kind: FilterKind,
    setup: SetupNo,
) -> Result<FlatReply, OutOfMemory>
    requires book { IsBook (view_of M.state P.state F.state book.old) }
    requires idle { IsIdle (view_of M.state P.state F.state book.old) }
    requires setup { SetupWithin (view_of M.state P.state F.state book.old).tray.payloads setup }
    ensures did { IfOk result (λ r. DidEvent (view_of M.state P.state F.state book.old) (view_of M.state P.state F.state book.new) (event.Replace filter kind (setup_at (view_of M.state P.state F.state book.old).tray.payloads.setups setup)) (reply_of (view_of M.state P.state F.state book.new).tray.payloads r)) }
    ensures shelf { IfOk result (λ r. FollowsShelf (view_of M.state P.state F.state book.old) (view_of M.state P.state F.state book.new) (event.Replace filter kind (setup_at (view_of M.state P.state F.state book.old).tray.payloads.setups setup)) (reply_of (view_of M.state P.state F.state book.new).tray.payloads r)) }
    ensures within { IfOk result (λ r. ReplyWithin (view_of M.state P.state F.state book.new).tray.payloads r) }
    ensures turn { OnOk result (CanEnd (view_of M.state P.state F.state book.new)) }
    ensures memory { OnErr result (IsUnmoved (view_of M.state P.state F.state book.old) (view_of M.state P.state F.state book.new)) }
{
    let Some(live) = live_count(&book.tray) else {
        return Err(OutOfMemory);
    };
    make_rooms(&mut book.tray, &mut book.seats, &mut book.shelf)?;
    if let Some(cause) = rewire_refusal(&book.tray, live, filter) {
        return Ok(FlatReply::Refused(cause));
    }
    let Some(place) = first_of_kind(book.filters.as_slice(), book.shelf.as_slice(), kind) else {
        return Ok(FlatReply::Refused(Refusal::ShelfEmpty));
    };
    replace_at(book, alloc, filter, kind, setup, place)
}
