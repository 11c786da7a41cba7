//! A status at a filter.
ghost use Rattle.std.specs.Prelude.{◌≡◌, ◌<◌, Some, IsSome, OnOk, OnErr, length, map, slice_set};
ghost use Rattle.ndis_base.specs.declared.ModuleId.TheVariants.{Filter};
ghost use Rattle.journal_types.specs.declared.Event.TheVariants as event;
ghost use Rattle.journal_types.specs.declared.Reply.TheVariants as reply;
ghost use Rattle.journal_types.specs.declared.Target.TheVariants.{Module};
ghost use Rattle.promise_rules.specs.declared.Called.TheVariants as called;
ghost use Rattle.driver_calls.specs.Rooms.{CanCount};
ghost use Rattle.driver_tray.specs.Tray.{first_status};
ghost use Rattle.book_lemmas.specs.Views.{filter_at};
ghost use Rattle.book_parts.specs.Parts.{view_of};
ghost use Rattle.book_parts.specs.Events.{IsBook, IsIdle, DidEvent, IsUnmoved, CanEnd};
ghost use Rattle.filter_work.specs.Works.{IsRoomed};
ghost use Rattle.status_work.specs.Rooms.{IsReady};
ghost use Rattle.status_work.specs.Works.{Sees, SeesFirst};

use book_parts::BookParts;
use driver_calls::{FilterCalls, MiniportCalls, ProtocolCalls};
use driver_tray::Tray;
use filter_work::places::place_of;
use flat_journal::Room;
use ndis_base::{ModuleId, OutOfMemory};
use stack_rules::StatusAway;

const FAR: u64 = 1 << 60;

/// Makes all room that a status at a filter wants.
fn make_room<F: FilterCalls>(filter: &F, tray: &mut Tray) -> Result<(), OutOfMemory>
    ensures tray { IsRoomed tray.old tray.new }
    ensures count { OnOk result (CanCount called.Status (F.state filter.now).did.served) }
    ensures ready { OnOk result (IsReady 2 1 tray.new) }
{
    if filter.served().status >= FAR {
        return Err(OutOfMemory);
    }
    tray.make_room(
        Room {
            turns: 1,
            rows: 2,
            ..Room::none()
        },
        1,
    )?;
    Ok(())
}

/// A filter sees a status, which is no longer on its way, and indicates it further up.
fn see<F: FilterCalls>(filter: &mut F, tray: &mut Tray, f: u64, status: StatusAway)
    requires setup { IsSome (F.state filter.old).setup }
    requires count { CanCount called.Status (F.state filter.old).did.served }
    requires ready { IsReady 2 1 tray.old }
    ensures { Sees f status (F.state filter.old) tray.old (F.state filter.new) tray.new }
{
    tray.set_caller(ModuleId::Filter(f));
    tray.see(status.number, ModuleId::Filter(f));
    filter.status(status.number, status.name, tray);
}

/// Works a status at a filter. After want of memory all is as before, but for room.
fn work_first<F: FilterCalls>(
    filter: &mut F,
    tray: &mut Tray,
    f: u64,
    status: StatusAway,
) -> Result<(), OutOfMemory>
    requires { IsSome (F.state filter.old).setup }
    ensures sees { OnOk result (SeesFirst f status (F.state filter.old) tray.old (F.state filter.new) tray.new) }
    ensures filter { OnErr result (F.state filter.new ≡ F.state filter.old) }
    ensures tray { OnErr result (IsRoomed tray.old tray.new) }
{
    make_room(filter, tray)?;
    see(filter, tray, f, status);
    Ok(())
}

/// Works a status at the filter of a place. After want of memory all is as before, but for room.
fn work_at<F: FilterCalls>(
    filters: &mut Vec<F>,
    tray: &mut Tray,
    place: usize,
    f: u64,
    status: StatusAway,
) -> Result<(), OutOfMemory>
    requires filters { place < length filters.old.items }
    requires setup { IsSome (filter_at (map F.state filters.old.items) (Some place)).setup }
    ensures filters { map F.state filters.new.items ≡ slice_set (map F.state filters.old.items) place (filter_at (map F.state filters.new.items) (Some place)) }
    ensures sees { OnOk result (SeesFirst f status (filter_at (map F.state filters.old.items) (Some place)) tray.old (filter_at (map F.state filters.new.items) (Some place)) tray.new) }
    ensures same_filters { OnErr result (map F.state filters.new.items ≡ map F.state filters.old.items) }
    ensures tray { OnErr result (IsRoomed tray.old tray.new) }
{
    work_first(&mut filters[place], tray, f, status)
}

/// A pump whose first thing is a status on its way to a filter: the filter sees it and indicates it further
/// up.
pub fn work_filter<M: MiniportCalls, P: ProtocolCalls, F: FilterCalls>(
    book: &mut BookParts<M, P, F>,
    status: StatusAway,
    f: u64,
) -> Result<(), OutOfMemory>
    requires book { IsBook (view_of M.state P.state F.state book.old) }
    requires idle { IsIdle (view_of M.state P.state F.state book.old) }
    requires first { first_status (view_of M.state P.state F.state book.old).tray.queue ≡ Some status }
    requires to { status.to ≡ Module (Filter f) }
    ensures did { OnOk result (DidEvent (view_of M.state P.state F.state book.old) (view_of M.state P.state F.state book.new) event.Pump reply.Moved) }
    ensures turn { OnOk result (CanEnd (view_of M.state P.state F.state book.new)) }
    ensures memory { OnErr result (IsUnmoved (view_of M.state P.state F.state book.old) (view_of M.state P.state F.state book.new)) }
{
    let Some(place) = place_of(book.seats.as_slice(), f) else {
        unreachable!()
    };
    work_at(&mut book.filters, &mut book.tray, place, f, status)
}
