//! A request at a filter.
ghost use Rattle.std.specs.Prelude.{◌≡◌, ◌<◌, None, Some, IsSome, OnOk, OnErr, length, map, slice_set};
ghost use Rattle.ndis_base.specs.declared.ModuleId.TheVariants.{Filter};
ghost use Rattle.journal_types.specs.declared.Event.TheVariants as event;
ghost use Rattle.journal_types.specs.declared.Reply.TheVariants as reply;
ghost use Rattle.promise_rules.specs.declared.Called.TheVariants as called;
ghost use Rattle.stack_rules.specs.Requests.{next_giving};
ghost use Rattle.driver_calls.specs.Rooms.{CanCount};
ghost use Rattle.driver_tray.specs.Tray.{first_way};
ghost use Rattle.book_lemmas.specs.Views.{filter_at};
ghost use Rattle.book_parts.specs.Parts.{view_of};
ghost use Rattle.book_parts.specs.Events.{IsBook, IsIdle, DidEvent, IsUnmoved, CanEnd};
ghost use Rattle.filter_work.specs.Works.{IsRoomed};
ghost use Rattle.request_work.specs.Rooms.{IsReady};
ghost use Rattle.request_work.specs.Works.{Forwards, ForwardsFirst};

use book_parts::BookParts;
use driver_calls::{FilterCalls, MiniportCalls, ProtocolCalls};
use driver_tray::Tray;
use filter_work::places::place_of;
use flat_journal::Room;
use ndis_base::{ModuleId, OutOfMemory};
use stack_rules::Request;

const FAR: u64 = 1 << 60;

/// Makes all room that a request at a filter wants.
fn make_room<F: FilterCalls>(
    filter: &F,
    tray: &mut Tray,
    request: &Request,
) -> Result<(), OutOfMemory>
    ensures tray { IsRoomed tray.old tray.new }
    ensures count { OnOk result (CanCount called.Oid (F.state filter.now).did.served) }
    ensures ready { OnOk result (IsReady 2 request.now.value tray.new) }
{
    if filter.served().oid >= FAR {
        return Err(OutOfMemory);
    }
    tray.make_room(
        Room {
            turns: 1,
            rows: 2,
            frames: 1,
            bytes: request.value.bytes().len(),
            ..Room::none()
        },
        1,
    )?;
    Ok(())
}

/// A filter is given a request, and forwards it by a clone.
fn give<F: FilterCalls>(filter: &mut F, tray: &mut Tray, f: u64, request: &Request)
    requires setup { IsSome (F.state filter.old).setup }
    requires count { CanCount called.Oid (F.state filter.old).did.served }
    requires ready { IsReady 2 request.now.value tray.old }
    ensures { Forwards f request.now (F.state filter.old) tray.old (F.state filter.new) tray.new }
{
    tray.set_caller(ModuleId::Filter(f));
    tray.give_request(request.request, ModuleId::Filter(f));
    filter.oid(request, tray);
}

/// Forwards a request at a filter. After want of memory all is as before, but for room.
fn forward_first<F: FilterCalls>(
    filter: &mut F,
    tray: &mut Tray,
    f: u64,
    request: &Request,
) -> Result<(), OutOfMemory>
    requires { IsSome (F.state filter.old).setup }
    ensures forwards { OnOk result (ForwardsFirst f request.now (F.state filter.old) tray.old (F.state filter.new) tray.new) }
    ensures filter { OnErr result (F.state filter.new ≡ F.state filter.old) }
    ensures tray { OnErr result (IsRoomed tray.old tray.new) }
{
    make_room(filter, tray, request)?;
    give(filter, tray, f, request);
    Ok(())
}

/// Forwards a request at the filter of a place. After want of memory all is as before, but for room.
fn forward_at<F: FilterCalls>(
    filters: &mut Vec<F>,
    tray: &mut Tray,
    place: usize,
    f: u64,
    request: &Request,
) -> Result<(), OutOfMemory>
    requires filters { place < length filters.old.items }
    requires setup { IsSome (filter_at (map F.state filters.old.items) (Some place)).setup }
    ensures filters { map F.state filters.new.items ≡ slice_set (map F.state filters.old.items) place (filter_at (map F.state filters.new.items) (Some place)) }
    ensures forwards { OnOk result (ForwardsFirst f request.now (filter_at (map F.state filters.old.items) (Some place)) tray.old (filter_at (map F.state filters.new.items) (Some place)) tray.new) }
    ensures same_filters { OnErr result (map F.state filters.new.items ≡ map F.state filters.old.items) }
    ensures tray { OnErr result (IsRoomed tray.old tray.new) }
{
    forward_first(&mut filters[place], tray, f, request)
}

/// A pump where nothing is on its way, whose next request is for a filter: it is given to the filter, which
/// forwards it by a clone.
pub fn forward<M: MiniportCalls, P: ProtocolCalls, F: FilterCalls>(
    book: &mut BookParts<M, P, F>,
    request: &Request,
    f: u64,
) -> Result<(), OutOfMemory>
    requires book { IsBook (view_of M.state P.state F.state book.old) }
    requires idle { IsIdle (view_of M.state P.state F.state book.old) }
    requires none { first_way (view_of M.state P.state F.state book.old).tray.queue ≡ None }
    requires next { next_giving (view_of M.state P.state F.state book.old).tray.net ≡ Some (record { request = request.now; module_id = Filter f }) }
    ensures did { OnOk result (DidEvent (view_of M.state P.state F.state book.old) (view_of M.state P.state F.state book.new) event.Pump reply.Moved) }
    ensures turn { OnOk result (CanEnd (view_of M.state P.state F.state book.new)) }
    ensures memory { OnErr result (IsUnmoved (view_of M.state P.state F.state book.old) (view_of M.state P.state F.state book.new)) }
{
    let Some(place) = place_of(book.seats.as_slice(), f) else {
        unreachable!()
    };
    forward_at(&mut book.filters, &mut book.tray, place, f, request)
}
