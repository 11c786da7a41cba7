//! The next position is Paused.
ghost use Rattle.std.specs.Prelude.{◌≡◌, ◌≤◌, ◌+◌, ◌^◌, length, IfOk, OnOk, OnErr};
ghost use Rattle.ndis_base.specs.declared.Phase.TheVariants as phase;
ghost use Rattle.journal_types.specs.declared.Event.TheVariants as event;
ghost use Rattle.flat_journal.specs.Shown.{reply_of};
ghost use Rattle.flat_journal.specs.Within.{ReplyWithin};
ghost use Rattle.book_parts.specs.Parts.{held_of, view_of};
ghost use Rattle.book_parts.specs.Events.{IsBook, IsIdle, DidEvent, IsUnmoved, CanEnd};
ghost use Rattle.phase_work.specs.Written.{each_written};
ghost use Rattle.pause_work.specs.Positions.{width, next_width, IsNumbered, IsNextNumbered, rows_of, next_reply};

use crate::calls::pause_floor;
use crate::counts::all_count;
use crate::floor::{Floor, floor_at, width};
use crate::writes::write_paused;
use book_parts::BookParts;
use driver_calls::{FilterCalls, MiniportCalls, ProtocolCalls};
use flat_journal::{FlatReply, Room};
use journal_types::Refusal;
use ndis_base::{OutOfMemory, Phase};
use phase_work::pauses::binding_count;

fn next_width(next: Option<Floor>) -> usize
    ensures many { result ≡ next_width next }
    ensures few { result ≤ 2 ^ 32 }
{
    match next {
        Some(floor) => width(floor),
        None => 1,
    }
}

fn room_for(rows: usize) -> Room
    ensures turns { result.turns ≡ 1 }
    ensures rows { result.rows ≡ rows }
{
    Room {
        turns: 1,
        rows,
        ..Room::none()
    }
}

/// A position is Paused, and the modules of the next one are told.
fn pause_position<M: MiniportCalls, P: ProtocolCalls, F: FilterCalls>(
    book: &mut BookParts<M, P, F>,
    floor: Floor,
    next: Option<Floor>,
) -> FlatReply
    requires numbered { IsNumbered floor }
    requires next_numbered { IsNextNumbered next }
    requires room { width floor + next_width next ≤ book.old.tray.room.rows }
    ensures tray { book.new.tray ≡ each_written book.old.tray (rows_of floor next) }
    ensures held { held_of M.state P.state F.state book.new ≡ held_of M.state P.state F.state book.old }
    ensures reply { reply_of book.new.tray.payloads result ≡ next_reply next }
    ensures within { ReplyWithin book.new.tray.payloads result }
{
    write_paused(&mut book.tray, floor, next);
    match next {
        Some(below) => {
            pause_floor(book, below);
            FlatReply::Next
        }
        None => FlatReply::Paused,
    }
}

/// The first position that isn't Paused waits for what it has outstanding, or is Paused.
fn pause_front<M: MiniportCalls, P: ProtocolCalls, F: FilterCalls>(
    book: &mut BookParts<M, P, F>,
    bindings: u32,
) -> Result<FlatReply, OutOfMemory>
    requires book { IsBook (view_of M.state P.state F.state book.old) }
    requires idle { IsIdle (view_of M.state P.state F.state book.old) }
    requires pausing { book.old.tray.net.phase ≡ phase.Pausing }
    requires bindings { bindings ≡ length book.old.tray.net.modules.bindings }
    ensures did { IfOk result (λ r. DidEvent (view_of M.state P.state F.state book.old) (view_of M.state P.state F.state book.new) event.PauseNext (reply_of (view_of M.state P.state F.state book.new).tray.payloads r)) }
    ensures within { IfOk result (λ r. ReplyWithin (view_of M.state P.state F.state book.new).tray.payloads r) }
    ensures turn { OnOk result (CanEnd (view_of M.state P.state F.state book.new)) }
    ensures memory { OnErr result (IsUnmoved (view_of M.state P.state F.state book.old) (view_of M.state P.state F.state book.new)) }
{
    let _positions = book.tray.floors_count();
    let position = book.tray.first_unpaused();
    let Some(floor) = floor_at(&book.tray, bindings, position) else {
        unreachable!()
    };
    let next = floor_at(&book.tray, bindings, position + 1);
    let Some(waiting) = all_count(book, floor, position) else {
        return Err(OutOfMemory);
    };
    let room = room_for(width(floor) + next_width(next));
    book.tray.make_room(room, 0)?;
    if waiting > 0 {
        Ok(FlatReply::Waiting { n: waiting as u64 })
    } else {
        Ok(pause_position(book, floor, next))
    }
}

/// A stack that pauses goes on: the first position that isn't Paused becomes it, and the modules of the next one begin
/// to pause and are told; or it waits for the lists that it has outstanding (WDK, "Pausing a Driver Stack"). It also
/// answers want of memory where there are 2 to the power of 32 bindings or more, or 2 to the power of 64 lists.
pub fn pause_next<M: MiniportCalls, P: ProtocolCalls, F: FilterCalls>(
    book: &mut BookParts<M, P, F>,
) -> Result<FlatReply, OutOfMemory>
    requires book { IsBook (view_of M.state P.state F.state book.old) }
    requires idle { IsIdle (view_of M.state P.state F.state book.old) }
    ensures did { IfOk result (λ r. DidEvent (view_of M.state P.state F.state book.old) (view_of M.state P.state F.state book.new) event.PauseNext (reply_of (view_of M.state P.state F.state book.new).tray.payloads r)) }
    ensures within { IfOk result (λ r. ReplyWithin (view_of M.state P.state F.state book.new).tray.payloads r) }
    ensures turn { OnOk result (CanEnd (view_of M.state P.state F.state book.new)) }
    ensures memory { OnErr result (IsUnmoved (view_of M.state P.state F.state book.old) (view_of M.state P.state F.state book.new)) }
{
    let Some(bindings) = binding_count(&book.tray) else {
        return Err(OutOfMemory);
    };
    match book.tray.phase() {
        Phase::Pausing => pause_front(book, bindings),
        phase => {
            book.tray.make_room(room_for(0), 0)?;
            Ok(FlatReply::Refused(Refusal::WrongPhase { phase }))
        }
    }
}
