//! The hold filters give away what they keep ready.
ghost use Rattle.std.specs.Prelude.{true, ◌≡◌, ℕ, ◌<◌, Some, IsSome, OnOk, OnErr, IfOk, length, map, slice_set};
ghost use Rattle.stack_rules.specs.Drains.{passes_all};
ghost use Rattle.stack_rules.specs.Rewires.{is_in};
ghost use Rattle.driver_calls.specs.Filters.{IsDrained};
ghost use Rattle.ndis_base.specs.declared.ModuleId.TheVariants.{Filter};
ghost use Rattle.book_lemmas.specs.Views.{filter_at, pool_at, seat_of};
ghost use Rattle.book_parts.specs.Parts.{view_of};
ghost use Rattle.drain_work.specs.Drains.{IsRoomed, TicksRoomed, IsResting, IsSame, Gives, passed_from};

use crate::calls::{make_room, tick_filter};
use book_parts::BookParts;
use buffer_pools::ListPool;
use driver_calls::{FilterCalls, MiniportCalls, ProtocolCalls};
use driver_tray::Tray;
use ndis_base::OutOfMemory;

/// The place of a filter's driver.
fn place_of(seats: &[(u64, usize)], f: u64) -> Option<usize>
    ensures { result ≡ seat_of seats.now f }
{
    match seats {
        [] => None,
        [seat, others @ ..] => {
            if seat.0 == f {
                Some(seat.1)
            } else {
                place_of(others, f)
            }
        }
    }
}

/// A filter gives away what it keeps ready, once there is room for that.
fn drain_one<F: FilterCalls>(
    filter: &mut F,
    tray: &mut Tray,
    pool: &mut ListPool,
    f: u64,
) -> Result<bool, OutOfMemory>
    requires { IsSome (F.state filter.old).setup }
    ensures ticks { IfOk result (λ moved. TicksRoomed (Filter f) (λ t left. IsDrained (F.state filter.old) t (F.state filter.new) left) tray.old pool.old moved tray.new pool.new) }
    ensures filter { OnErr result (F.state filter.new ≡ F.state filter.old) }
    ensures tray { OnErr result (IsRoomed tray.old tray.new) }
    ensures pool { OnErr result (pool.new ≡ pool.old) }
{
    make_room(tray, filter.held())?;
    Ok(tick_filter(filter, tray, pool, f))
}

/// The same at the filter's place.
fn drain_at<F: FilterCalls>(
    filters: &mut Vec<F>,
    tray: &mut Tray,
    pools: &mut Vec<ListPool>,
    place: usize,
    f: u64,
) -> Result<bool, OutOfMemory>
    requires filters { place < length filters.old.items }
    requires pools { place < length pools.old.items }
    requires setup { IsSome (filter_at (map F.state filters.old.items) (Some place)).setup }
    ensures filters { map F.state filters.new.items ≡ slice_set (map F.state filters.old.items) place (filter_at (map F.state filters.new.items) (Some place)) }
    ensures pools { pools.new.items ≡ slice_set pools.old.items place (pool_at pools.new.items (Some place)) }
    ensures ticks { IfOk result (λ moved. TicksRoomed (Filter f) (λ t left. IsDrained (filter_at (map F.state filters.old.items) (Some place)) t (filter_at (map F.state filters.new.items) (Some place)) left) tray.old (pool_at pools.old.items (Some place)) moved tray.new (pool_at pools.new.items (Some place))) }
    ensures same_filters { OnErr result (map F.state filters.new.items ≡ map F.state filters.old.items) }
    ensures tray { OnErr result (IsRoomed tray.old tray.new) }
    ensures same_pools { OnErr result (pools.new.items ≡ pools.old.items) }
{
    drain_one(&mut filters[place], tray, &mut pools[place], f)
}

/// A filter of the configuration gives away what it keeps ready, if it is a hold filter. It answers
/// whether it gave any.
fn drain_filter<M: MiniportCalls, P: ProtocolCalls, F: FilterCalls>(
    book: &mut BookParts<M, P, F>,
    f: u64,
) -> Result<bool, OutOfMemory>
    requires rests { IsResting (view_of M.state P.state F.state book.old) }
    requires inside { is_in f (view_of M.state P.state F.state book.old).tray.net.modules.order ≡ true }
    ensures gives { IfOk result (λ moved. Gives (view_of M.state P.state F.state book.old) (view_of M.state P.state F.state book.new) (passes_all (view_of M.state P.state F.state book.old).tray.net f) moved) }
    ensures memory { OnErr result (IsSame (view_of M.state P.state F.state book.old) (view_of M.state P.state F.state book.new)) }
{
    let Some(place) = place_of(book.seats.as_slice(), f) else {
        unreachable!()
    };
    drain_at(
        &mut book.filters,
        &mut book.tray,
        &mut book.filter_pools,
        place,
        f,
    )
}

/// The first filter from a place of the configuration on that keeps ready lists gives them away, of so
/// many filters. It answers whether there is one.
pub fn drain_filters<M: MiniportCalls, P: ProtocolCalls, F: FilterCalls>(
    book: &mut BookParts<M, P, F>,
    index: usize,
    count: usize,
) -> Result<bool, OutOfMemory>
    requires rests { IsResting (view_of M.state P.state F.state book.old) }
    requires all { count ≡ length (view_of M.state P.state F.state book.old).tray.net.modules.order }
    ensures gives { IfOk result (λ moved. Gives (view_of M.state P.state F.state book.old) (view_of M.state P.state F.state book.new) (passed_from (view_of M.state P.state F.state book.old).tray.net index) moved) }
    ensures memory { OnErr result (IsSame (view_of M.state P.state F.state book.old) (view_of M.state P.state F.state book.new)) }
{
    if index >= count {
        return Ok(false);
    }
    let f = book.tray.order()[index];
    if drain_filter(book, f)? {
        return Ok(true);
    }
    drain_filters(book, index + 1, count)
}
