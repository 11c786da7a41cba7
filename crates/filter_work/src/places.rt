//! A filter at its place in a book.
ghost use Rattle.std.specs.Prelude.{◌≡◌, ◌<◌, ℕ, Some, OnOk, OnErr, length, map, slice_set};
ghost use Rattle.journal_types.specs.declared.Event.TheVariants as event;
ghost use Rattle.journal_types.specs.declared.Reply.TheVariants as reply;
ghost use Rattle.book_lemmas.specs.Views.{filter_at, pool_at, seat_of};
ghost use Rattle.book_parts.specs.Parts.{view_of};
ghost use Rattle.book_parts.specs.Events.{IsBook, IsIdle, DidEvent, IsUnmoved, CanEnd};
ghost use Rattle.filter_work.specs.Works.{GoesTo, MayWork, IsRoomed, WorksFirst};

use crate::calls::work_first;
use book_parts::BookParts;
use buffer_pools::ListPool;
use driver_calls::{FilterCalls, MiniportCalls, ProtocolCalls};
use driver_tray::Tray;
use ndis_base::OutOfMemory;

/// The place of a filter's driver.
pub fn place_of(seats: &[(u64, usize)], f: u64) -> Option<usize>
    ensures { result ≡ seat_of seats.now f }
{
    match seats {
        [] => None,
        [seat, others @ ..] => {
            if seat.0 == f {
                Some(seat.1)
            } else {
                place_of(others, f)
            }
        }
    }
}

/// Works the first list on its way at the filter of a place. After want of memory all is as before, but
/// for room.
fn work_at<F: FilterCalls>(
    filters: &mut Vec<F>,
    tray: &mut Tray,
    pools: &mut Vec<ListPool>,
    place: usize,
    f: u64,
) -> Result<(), OutOfMemory>
    requires filters { place < length filters.old.items }
    requires pools { place < length pools.old.items }
    requires may { MayWork f (filter_at (map F.state filters.old.items) (Some place)) tray.old (pool_at pools.old.items (Some place)) }
    ensures filters { map F.state filters.new.items ≡ slice_set (map F.state filters.old.items) place (filter_at (map F.state filters.new.items) (Some place)) }
    ensures pools { pools.new.items ≡ slice_set pools.old.items place (pool_at pools.new.items (Some place)) }
    ensures works { OnOk result (WorksFirst f (filter_at (map F.state filters.old.items) (Some place)) tray.old (pool_at pools.old.items (Some place)) (filter_at (map F.state filters.new.items) (Some place)) tray.new (pool_at pools.new.items (Some place))) }
    ensures same_filters { OnErr result (map F.state filters.new.items ≡ map F.state filters.old.items) }
    ensures tray { OnErr result (IsRoomed tray.old tray.new) }
    ensures same_pools { OnErr result (pools.new.items ≡ pools.old.items) }
{
    work_first(&mut filters[place], tray, &mut pools[place], f)
}

/// A pump whose first thing is a list on its way to a filter: the filter is given it.
pub fn work_filter<M: MiniportCalls, P: ProtocolCalls, F: FilterCalls>(
    book: &mut BookParts<M, P, F>,
    f: u64,
) -> Result<(), OutOfMemory>
    requires book { IsBook (view_of M.state P.state F.state book.old) }
    requires idle { IsIdle (view_of M.state P.state F.state book.old) }
    requires first { GoesTo (view_of M.state P.state F.state book.old) f }
    ensures did { OnOk result (DidEvent (view_of M.state P.state F.state book.old) (view_of M.state P.state F.state book.new) event.Pump reply.Moved) }
    ensures turn { OnOk result (CanEnd (view_of M.state P.state F.state book.new)) }
    ensures memory { OnErr result (IsUnmoved (view_of M.state P.state F.state book.old) (view_of M.state P.state F.state book.new)) }
{
    let Some(place) = place_of(book.seats.as_slice(), f) else {
        unreachable!()
    };
    work_at(
        &mut book.filters,
        &mut book.tray,
        &mut book.filter_pools,
        place,
        f,
    )
}
