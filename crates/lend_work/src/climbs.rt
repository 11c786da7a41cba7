//! A lent list goes up through the filters.
ghost use Rattle.std.specs.Prelude.{◌≡◌, ◌≤◌, length, map};
ghost use Rattle.std.specs.List.{All};
ghost use Rattle.book_lemmas.specs.Views.{seat_of};
ghost use Rattle.lend_work.specs.Visits.{bench};
ghost use Rattle.lend_work.specs.Climbs.{Climbs, MayClimb, receivers};

use crate::visits::lend_at;
use buffer_pools::{BufferList, ListPool};
use driver_calls::FilterCalls;
use driver_tray::Tray;
use ndis_base::ListStatus;

/// The place of a filter's driver.
fn place_of(seats: &[(u64, usize)], f: u64) -> Option<usize>
    ensures { result ≡ seat_of seats.now f }
{
    match seats {
        [] => None,
        [seat, others @ ..] => {
            if seat.0 == f {
                Some(seat.1)
            } else {
                place_of(others, f)
            }
        }
    }
}

/// Lends a list to each of the topmost so many filters of the order that has the receive pair, the lowest first, until one
/// of them has it go home. It answers with which status the list goes home, or None where it comes to the bindings.
pub(crate) fn climb<F: FilterCalls>(
    filters: &mut Vec<F>,
    tray: &mut Tray,
    pools: &mut Vec<ListPool>,
    seats: &[(u64, usize)],
    list: &BufferList,
    many: usize,
) -> Option<ListStatus>
    requires may { MayClimb seats.now many list.now (bench (map F.state filters.old.items) pools.old.items tray.old) }
    requires rooms { All (λ r. 1 ≤ r) (map F.room filters.old.items) }
    ensures { Climbs seats.now list.now (receivers tray.old.net.modules many) (bench (map F.state filters.old.items) pools.old.items tray.old) result (bench (map F.state filters.new.items) pools.new.items tray.new) }
{
    if many == 0 {
        return None;
    }
    let f = tray.order()[many - 1];
    if !tray.modules().has_receive(f) {
        return climb(filters, tray, pools, seats, list, many - 1);
    }
    let Some(place) = place_of(seats, f) else {
        unreachable!()
    };
    match lend_at(filters, tray, pools, place, f, list) {
        Some(status) => Some(status),
        None => climb(filters, tray, pools, seats, list, many - 1),
    }
}
