//! How much a position has in hand.
ghost use Rattle.std.specs.Prelude.{◌≡◌, ◌+◌, length, slice_index_or, map};
ghost use Rattle.buffer_pools.specs.Views.{live_count};
ghost use Rattle.book_lemmas.specs.Views.{filter_at, no_pool, no_protocol, pool_at, seat_of};
ghost use Rattle.book_parts.specs.Parts.{held_of, view_of};
ghost use Rattle.pause_work.specs.declared.floor.Floor.TheVariants as a_floor;
ghost use Rattle.pause_work.specs.Hands.{Counts, hand_count, floor_count, all_count};

use crate::floor::Floor;
use book_parts::BookParts;
use buffer_pools::ListPool;
use driver_calls::{FilterCalls, MiniportCalls, ProtocolCalls};
use ndis_base::ModuleId;

/// The place of a filter's driver.
pub fn place_of(seats: &[(u64, usize)], f: u64) -> Option<usize>
    ensures { result ≡ seat_of seats.now f }
{
    match seats {
        [] => None,
        [seat, others @ ..] => {
            if seat.0 == f {
                Some(seat.1)
            } else {
                place_of(others, f)
            }
        }
    }
}

fn sum_of(a: usize, b: usize) -> Option<usize>
    ensures { Counts result (a + b) }
{
    a.checked_add(b)
}

/// How many lists the filter at a place keeps; none where no filter has a place.
fn kept_at<F: FilterCalls>(filters: &[F], place: Option<usize>) -> usize
    ensures { result ≡ length (filter_at (map F.state filters.now) place).kept }
{
    let Some(place) = place else {
        return 0;
    };
    if place < filters.len() {
        filters[place].held()
    } else {
        0
    }
}

/// How many lists of the pool at a place are live.
fn live_at(pools: &[ListPool], place: Option<usize>) -> usize
    ensures { result ≡ live_count (pool_at pools.now place) }
{
    let Some(place) = place else {
        return 0;
    };
    if place < pools.len() {
        pools[place].live()
    } else {
        0
    }
}

/// How many lists the protocol of a binding keeps.
fn kept_by<P: ProtocolCalls>(protocols: &[P], binding: u32) -> usize
    ensures { result ≡ length (slice_index_or (map P.state protocols.now) binding no_protocol).kept }
{
    let place = binding as usize;
    if place < protocols.len() {
        protocols[place].held()
    } else {
        0
    }
}

/// How many lists of a binding's pool are live.
fn live_by(pools: &[ListPool], binding: u32) -> usize
    ensures { result ≡ live_count (slice_index_or pools.now binding no_pool) }
{
    let place = binding as usize;
    if place < pools.len() {
        pools[place].live()
    } else {
        0
    }
}

/// How many lists a module owns and keeps. None where 64 bits don't hold it.
fn hand_count<M: MiniportCalls, P: ProtocolCalls, F: FilterCalls>(
    book: &BookParts<M, P, F>,
    id: ModuleId,
) -> Option<usize>
    ensures { Counts result (hand_count (held_of M.state P.state F.state book.now) id) }
{
    match id {
        ModuleId::Miniport => sum_of(book.miniport_pool.live(), book.miniport.held()),
        ModuleId::Filter(f) => {
            let place = place_of(book.seats.as_slice(), f);
            let kept = kept_at(book.filters.as_slice(), place);
            sum_of(live_at(book.filter_pools.as_slice(), place), kept)
        }
        ModuleId::Binding(binding) => {
            let kept = kept_by(book.protocols.as_slice(), binding);
            sum_of(live_by(book.protocol_pools.as_slice(), binding), kept)
        }
    }
}

/// How many lists so many bindings own and keep.
fn bindings_count<M: MiniportCalls, P: ProtocolCalls, F: FilterCalls>(
    book: &BookParts<M, P, F>,
    many: u32,
) -> Option<usize>
    ensures { Counts result (floor_count (held_of M.state P.state F.state book.now) (a_floor.Bindings many)) }
{
    let mut total = 0usize;
    for binding in 0..many {
        let count = hand_count(book, ModuleId::Binding(binding))?;
        total = sum_of(total, count)?;
    }
    Some(total)
}

/// How many lists the modules of a position own and keep.
fn floor_count<M: MiniportCalls, P: ProtocolCalls, F: FilterCalls>(
    book: &BookParts<M, P, F>,
    floor: Floor,
) -> Option<usize>
    ensures { Counts result (floor_count (held_of M.state P.state F.state book.now) floor) }
{
    match floor {
        Floor::Bindings(many) => bindings_count(book, many),
        Floor::Filter(f) => hand_count(book, ModuleId::Filter(f)),
        Floor::Miniport => hand_count(book, ModuleId::Miniport),
    }
}

/// How many lists a position has in hand: what its modules own and keep, and what else on its way counts there. None
/// where 64 bits don't hold it.
pub fn all_count<M: MiniportCalls, P: ProtocolCalls, F: FilterCalls>(
    book: &BookParts<M, P, F>,
    floor: Floor,
    position: usize,
) -> Option<usize>
    ensures { Counts result (all_count (view_of M.state P.state F.state book.now) position floor) }
{
    let count = floor_count(book, floor)?;
    sum_of(count, book.tray.away_at(position))
}
