//! The event of a cancel.
ghost use Rattle.std.specs.Prelude.{true, ◌≡◌, ◌+◌, ◌<◌, ◌∷◌, [], Some, OnOk, OnErr, IfOk, length, map, slice_set};
ghost use Rattle.ndis_base.specs.declared.ModuleId.TheVariants.{Filter, Miniport};
ghost use Rattle.journal_types.specs.declared.Event.TheVariants as event;
ghost use Rattle.flat_journal.specs.Shown.{reply_of};
ghost use Rattle.flat_journal.specs.Within.{ReplyWithin};
ghost use Rattle.stack_rules.specs.Cancels.{is_hold_filter};
ghost use Rattle.stack_rules.specs.Tests.{is_hold};
ghost use Rattle.state_laws.specs.Shape.{IsDistinct};
ghost use Rattle.driver_calls.specs.Filters.{MayGiveAll};
ghost use Rattle.book_lemmas.specs.Views.{filter_at, pool_at};
ghost use Rattle.book_parts.specs.Parts.{held_of, view_of};
ghost use Rattle.book_parts.specs.Events.{IsBook, IsIdle, DidEvent, IsUnmoved, CanEnd};
ghost use Rattle.cancel_work.specs.Cancels.{queues_from, kept_by, IsCounted, HasRoomToCancel, FilterTurns, CancelledAt, Cancelled};

use crate::calls::{cancel_by_filter, cancel_by_miniport};
use book_parts::BookParts;
use buffer_pools::ListPool;
use drain_work::calls::make_room;
use driver_calls::{FilterCalls, MiniportCalls, ProtocolCalls};
use driver_tray::Tray;
use flat_journal::FlatReply;
use ndis_base::OutOfMemory;
use pause_work::counts::place_of;

const FAR: usize = 1 << 60;

/// How many lists the filter at a place keeps; none where no filter has a place.
fn kept_at<F: FilterCalls>(filters: &[F], place: Option<usize>) -> usize
    ensures { result ≡ length (filter_at (map F.state filters.now) place).kept }
{
    let Some(place) = place else {
        return 0;
    };
    if place < filters.len() {
        filters[place].held()
    } else {
        0
    }
}

/// The sum of two counts of lists. It answers want of memory where it is 2 to the power of 60 or more: no
/// memory has so many lists.
fn added(a: usize, b: usize) -> Result<usize, OutOfMemory>
    ensures { IfOk result (IsCounted (a + b)) }
{
    if a >= FAR || b >= FAR - a {
        return Err(OutOfMemory);
    }
    Ok(a + b)
}

/// How many lists the modules that queue sends keep, from a place of the configuration on, of so many
/// filters.
fn kept_from<M: MiniportCalls, P: ProtocolCalls, F: FilterCalls>(
    book: &BookParts<M, P, F>,
    index: usize,
    count: usize,
) -> Result<usize, OutOfMemory>
    requires { count ≡ length (view_of M.state P.state F.state book.now).tray.net.modules.order }
    ensures { IfOk result (IsCounted (kept_by (held_of M.state P.state F.state book.now) (queues_from (view_of M.state P.state F.state book.now).tray.net.modules index))) }
{
    if index >= count {
        return added(0, book.miniport.held());
    }
    let f = book.tray.order()[index];
    let others = kept_from(book, index + 1, count)?;
    if !book.tray.modules().is_hold_filter(f) {
        return Ok(others);
    }
    let place = place_of(book.seats.as_slice(), f);
    added(kept_at(book.filters.as_slice(), place), others)
}

/// The hold filter at a place turns its sends back. It answers how many they were.
fn cancel_at<F: FilterCalls>(
    filters: &mut Vec<F>,
    tray: &mut Tray,
    pools: &mut Vec<ListPool>,
    place: usize,
    f: u64,
    id: u32,
) -> usize
    requires filters { place < length filters.old.items }
    requires pools { place < length pools.old.items }
    requires may { MayGiveAll (filter_at (map F.state filters.old.items) (Some place)) tray.old }
    requires hold { is_hold (filter_at (map F.state filters.old.items) (Some place)).kind ≡ true }
    ensures filters { map F.state filters.new.items ≡ slice_set (map F.state filters.old.items) place (filter_at (map F.state filters.new.items) (Some place)) }
    ensures pools { pools.new.items ≡ slice_set pools.old.items place (pool_at pools.new.items (Some place)) }
    ensures turns { FilterTurns f id (filter_at (map F.state filters.old.items) (Some place)) tray.old (pool_at pools.old.items (Some place)) result (filter_at (map F.state filters.new.items) (Some place)) tray.new (pool_at pools.new.items (Some place)) }
{
    cancel_by_filter(&mut filters[place], tray, &mut pools[place], f, id)
}

/// A hold filter of the configuration turns its sends back. It answers how many they were.
fn cancel_filter<M: MiniportCalls, P: ProtocolCalls, F: FilterCalls>(
    book: &mut BookParts<M, P, F>,
    f: u64,
    id: u32,
) -> usize
    requires book { IsBook (view_of M.state P.state F.state book.old) }
    requires hold { is_hold_filter (view_of M.state P.state F.state book.old).tray.net.modules f ≡ true }
    requires room { HasRoomToCancel (view_of M.state P.state F.state book.old) (Filter f ∷ []) }
    ensures { CancelledAt (view_of M.state P.state F.state book.old) (view_of M.state P.state F.state book.new) id (Filter f) result }
{
    let Some(place) = place_of(book.seats.as_slice(), f) else {
        unreachable!()
    };
    cancel_at(
        &mut book.filters,
        &mut book.tray,
        &mut book.filter_pools,
        place,
        f,
        id,
    )
}

/// The miniport turns its sends back. It answers how many they were.
fn cancel_miniport<M: MiniportCalls, P: ProtocolCalls, F: FilterCalls>(
    book: &mut BookParts<M, P, F>,
    id: u32,
) -> usize
    requires book { IsBook (view_of M.state P.state F.state book.old) }
    requires room { HasRoomToCancel (view_of M.state P.state F.state book.old) (Miniport ∷ []) }
    ensures { CancelledAt (view_of M.state P.state F.state book.old) (view_of M.state P.state F.state book.new) id Miniport result }
{
    cancel_by_miniport(
        &mut book.miniport,
        &mut book.tray,
        &mut book.miniport_pool,
        id,
    )
}

/// The modules that queue sends turn theirs back, from a place of the configuration on, of so many
/// filters. It answers how many they were.
fn cancel_from<M: MiniportCalls, P: ProtocolCalls, F: FilterCalls>(
    book: &mut BookParts<M, P, F>,
    index: usize,
    count: usize,
    id: u32,
) -> usize
    requires book { IsBook (view_of M.state P.state F.state book.old) }
    requires all { count ≡ length (view_of M.state P.state F.state book.old).tray.net.modules.order }
    requires distinct { IsDistinct (view_of M.state P.state F.state book.old).tray.net.modules.order }
    requires room { HasRoomToCancel (view_of M.state P.state F.state book.old) (queues_from (view_of M.state P.state F.state book.old).tray.net.modules index) }
    ensures { Cancelled (view_of M.state P.state F.state book.old) (view_of M.state P.state F.state book.new) id (queues_from (view_of M.state P.state F.state book.old).tray.net.modules index) result }
{
    if index >= count {
        return cancel_miniport(book, id);
    }
    let f = book.tray.order()[index];
    if !book.tray.modules().is_hold_filter(f) {
        return cancel_from(book, index + 1, count, id);
    }
    let here = cancel_filter(book, f, id);
    let below = cancel_from(book, index + 1, count, id);
    here + below
}

/// Cancels the sends that carry an identifier: from the top down each hold filter, then the miniport, turns back
/// with Aborted those that it keeps ready (WDK, "Canceling a Send Operation": NdisCancelSendNetBufferLists).
/// The answer has the number of lists that were turned back. It also answers want of memory where these
/// modules keep 2 to the power of 60 lists or more.
pub fn cancel<M: MiniportCalls, P: ProtocolCalls, F: FilterCalls>(
    book: &mut BookParts<M, P, F>,
    id: u32,
) -> Result<FlatReply, OutOfMemory>
    requires book { IsBook (view_of M.state P.state F.state book.old) }
    requires idle { IsIdle (view_of M.state P.state F.state book.old) }
    ensures did { IfOk result (λ r. DidEvent (view_of M.state P.state F.state book.old) (view_of M.state P.state F.state book.new) (event.Cancel id) (reply_of (view_of M.state P.state F.state book.new).tray.payloads r)) }
    ensures within { IfOk result (λ r. ReplyWithin (view_of M.state P.state F.state book.new).tray.payloads r) }
    ensures turn { OnOk result (CanEnd (view_of M.state P.state F.state book.new)) }
    ensures memory { OnErr result (IsUnmoved (view_of M.state P.state F.state book.old) (view_of M.state P.state F.state book.new)) }
{
    let count = book.tray.order().len();
    let kept = kept_from(book, 0, count)?;
    make_room(&mut book.tray, kept)?;
    let lists = cancel_from(book, 0, count, id);
    Ok(FlatReply::Cancelled { n: lists as u64 })
}
