//! An answer on its way to a filter.
ghost use Rattle.std.specs.Prelude.{◌≡◌, ◌<◌, Some, IsSome, OnOk, OnErr, length, map, slice_set};
ghost use Rattle.journal_types.specs.declared.Event.TheVariants as event;
ghost use Rattle.journal_types.specs.declared.Reply.TheVariants as reply;
ghost use Rattle.stack_rules.specs.Net.{request_of};
ghost use Rattle.promise_rules.specs.declared.Called.TheVariants as called;
ghost use Rattle.driver_calls.specs.Rooms.{CanCount};
ghost use Rattle.driver_tray.specs.Tray.{first_way, first_answer};
ghost use Rattle.driver_tray.specs.declared.on_way.First.TheVariants as first;
ghost use Rattle.book_lemmas.specs.Views.{filter_at};
ghost use Rattle.book_parts.specs.Parts.{view_of};
ghost use Rattle.book_parts.specs.Events.{IsBook, IsIdle, DidEvent, IsUnmoved, CanEnd};
ghost use Rattle.filter_work.specs.Works.{IsRoomed};
ghost use Rattle.answer_work.specs.Rooms.{IsReady};
ghost use Rattle.answer_work.specs.Works.{holder_in, Finishes, FinishesFirst};

use crate::tellings::{room_at, tell_binding};
use book_parts::BookParts;
use driver_calls::{FilterCalls, MiniportCalls, ProtocolCalls};
use driver_tray::Tray;
use filter_work::places::place_of;
use flat_journal::Room;
use ndis_base::{ModuleId, OidValue, OutOfMemory};
use stack_rules::{Answered, Request, RequestAt};

const FAR: u64 = 1 << 60;

/// The filter that has a request.
fn holder_in(at: RequestAt) -> Option<u64>
    ensures { result ≡ holder_in at }
{
    match at {
        RequestAt::Given(ModuleId::Filter(f)) => Some(f),
        _ => None,
    }
}

/// Makes all room that an answer at a filter wants.
fn make_room<F: FilterCalls>(
    filter: &F,
    tray: &mut Tray,
    value: &OidValue,
) -> Result<(), OutOfMemory>
    ensures tray { IsRoomed tray.old tray.new }
    ensures count { OnOk result (CanCount called.OidComplete (F.state filter.now).did.served) }
    ensures ready { OnOk result (IsReady 1 (length value.now) tray.new) }
{
    if filter.served().oid_complete >= FAR {
        return Err(OutOfMemory);
    }
    tray.make_room(
        Room {
            turns: 1,
            rows: 1,
            frames: 1,
            bytes: value.bytes().len(),
            ..Room::none()
        },
        1,
    )?;
    Ok(())
}

/// A filter completes the request that it forwarded, with the clone's status and value.
fn complete<F: FilterCalls>(filter: &mut F, tray: &mut Tray, f: u64, answer: &Answered)
    requires setup { IsSome (F.state filter.old).setup }
    requires count { CanCount called.OidComplete (F.state filter.old).did.served }
    requires ready { IsReady 1 (length answer.now.value) tray.old }
    ensures { Finishes f answer.now (F.state filter.old) tray.old (F.state filter.new) tray.new }
{
    tray.set_caller(ModuleId::Filter(f));
    filter.oid_complete(answer.parent, answer.status, &answer.value, tray);
}

/// Works an answer at a filter. After want of memory all is as before, but for room.
fn work_first<F: FilterCalls>(
    filter: &mut F,
    tray: &mut Tray,
    f: u64,
    answer: &Answered,
) -> Result<(), OutOfMemory>
    requires { IsSome (F.state filter.old).setup }
    ensures finishes { OnOk result (FinishesFirst f answer.now (F.state filter.old) tray.old (F.state filter.new) tray.new) }
    ensures filter { OnErr result (F.state filter.new ≡ F.state filter.old) }
    ensures tray { OnErr result (IsRoomed tray.old tray.new) }
{
    make_room(filter, tray, &answer.value)?;
    complete(filter, tray, f, answer);
    Ok(())
}

/// Works an answer at the filter of a place. After want of memory all is as before, but for room.
fn work_at<F: FilterCalls>(
    filters: &mut Vec<F>,
    tray: &mut Tray,
    place: usize,
    f: u64,
    answer: &Answered,
) -> Result<(), OutOfMemory>
    requires filters { place < length filters.old.items }
    requires setup { IsSome (filter_at (map F.state filters.old.items) (Some place)).setup }
    ensures filters { map F.state filters.new.items ≡ slice_set (map F.state filters.old.items) place (filter_at (map F.state filters.new.items) (Some place)) }
    ensures finishes { OnOk result (FinishesFirst f answer.now (filter_at (map F.state filters.old.items) (Some place)) tray.old (filter_at (map F.state filters.new.items) (Some place)) tray.new) }
    ensures same_filters { OnErr result (map F.state filters.new.items ≡ map F.state filters.old.items) }
    ensures tray { OnErr result (IsRoomed tray.old tray.new) }
{
    work_first(&mut filters[place], tray, f, answer)
}

/// Works an answer to a clone of a request that a filter has: the filter completes the request, and its
/// binding is told where it is no clone. It also answers want of memory where a count comes near 2 to the
/// power of 60, which no run can reach.
fn finish_at<M: MiniportCalls, P: ProtocolCalls, F: FilterCalls>(
    book: &mut BookParts<M, P, F>,
    answer: &Answered,
    asked: &Request,
    f: u64,
) -> Result<(), OutOfMemory>
    requires book { IsBook (view_of M.state P.state F.state book.old) }
    requires idle { IsIdle (view_of M.state P.state F.state book.old) }
    requires first { first_answer (view_of M.state P.state F.state book.old).tray.queue ≡ Some answer.now }
    requires asked { request_of answer.now.parent.0 (view_of M.state P.state F.state book.old).tray.net.requests ≡ Some asked.now }
    requires at { holder_in asked.now.at ≡ Some f }
    ensures did { OnOk result (DidEvent (view_of M.state P.state F.state book.old) (view_of M.state P.state F.state book.new) event.Pump reply.Moved) }
    ensures turn { OnOk result (CanEnd (view_of M.state P.state F.state book.new)) }
    ensures memory { OnErr result (IsUnmoved (view_of M.state P.state F.state book.old) (view_of M.state P.state F.state book.new)) }
{
    let Some(place) = place_of(book.seats.as_slice(), f) else {
        unreachable!()
    };
    room_at(book.protocols.as_slice(), asked.binding)?;
    work_at(&mut book.filters, &mut book.tray, place, f, answer)?;
    tell_binding(
        &mut book.protocols,
        asked.parent,
        asked.binding,
        answer.parent,
        answer.status,
        &answer.value,
    );
    Ok(())
}

/// A pump whose first thing is the answer to a clone: the filter that made the clone completes the request that
/// it forwarded, with the clone's status and value. Where that request is no clone, its binding is told.
pub fn finish<M: MiniportCalls, P: ProtocolCalls, F: FilterCalls>(
    book: &mut BookParts<M, P, F>,
) -> Result<(), OutOfMemory>
    requires book { IsBook (view_of M.state P.state F.state book.old) }
    requires idle { IsIdle (view_of M.state P.state F.state book.old) }
    requires first { first_way (view_of M.state P.state F.state book.old).tray.queue ≡ Some first.Answer }
    ensures did { OnOk result (DidEvent (view_of M.state P.state F.state book.old) (view_of M.state P.state F.state book.new) event.Pump reply.Moved) }
    ensures turn { OnOk result (CanEnd (view_of M.state P.state F.state book.new)) }
    ensures memory { OnErr result (IsUnmoved (view_of M.state P.state F.state book.old) (view_of M.state P.state F.state book.new)) }
{
    let Some(answer) = book.tray.first_answer() else {
        unreachable!()
    };
    let Some(asked) = book.tray.request_of(answer.parent.0) else {
        unreachable!()
    };
    let Some(f) = holder_in(asked.at) else {
        unreachable!()
    };
    finish_at(book, &answer, &asked, f)
}
