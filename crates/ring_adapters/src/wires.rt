//! What adapters do with the lists of their rings.
ghost use Rattle.std.specs.Prelude.{◌≡◌, ◌+◌, ◌*◌, ◌-◌, ◌≤◌, ◌<◌, ◌^◌, ◌++◌, ◌∷◌, []};
ghost use Rattle.frame_arena.specs.Spans.{frames_at, SpanWithin};
ghost use Rattle.hand_lemmas.specs.Frames.{AreSized};
ghost use Rattle.driver_calls.specs.Rooms.{HasRoomFor};
ghost use Rattle.ring_adapters.specs.Rings.{Enqueues, Indicates, Crosses, CanCross};

use buffer_pools::BufferList;
use driver_log::DriverLog;
use driver_tray::Tray;
use frame_arena::FrameSpan;
use kept_lists::KeptLists;
use ndis_base::{Direction, ListStatus};

/// Puts a list into a ring, or turns it back where the ring is full.
pub(crate) fn enqueue(ring: &mut KeptLists, list: BufferList, tray: &mut Tray)
    requires room { HasRoomFor 2 1 tray.old }
    ensures { Enqueues ring.old list tray.old ring.new tray.new }
{
    if ring.room() > 0 {
        tray.keep_note(list.number());
        ring.push(list);
    } else {
        tray.turn_back(list, ListStatus::Resources);
    }
}

/// Indicates the frames that went onto the wire, where the adapter loops them and its pool has a list.
fn indicate(loops: bool, list: &BufferList, span: FrameSpan, tray: &mut Tray)
    requires sized { AreSized list.now.frames }
    requires pool { tray.old.pool.bytes ≡ 1518 }
    requires within { SpanWithin tray.old.payloads.frames span }
    requires shown { frames_at tray.old.payloads.frames span ≡ list.now.frames }
    requires room { 2 ≤ tray.old.room.rows }
    requires slack { 1 ≤ tray.old.slack }
    requires low { tray.old.net.next.list < 2 ^ 60 }
    requires received { tray.old.net.port.received < 2 ^ 60 }
    ensures indicates { Indicates loops list.now tray.old tray.new }
    ensures rows { tray.old.room.rows ≤ tray.new.room.rows + 2 }
    ensures slack { tray.old.slack ≤ tray.new.slack + 1 }
{
    if !loops {
        return;
    }
    match tray.start_copy(Direction::Up, list, span) {
        Ok(_) => {}
        Err(_) => {}
    }
}

/// Puts a list onto the wire and into the log, and passes it back.
pub(crate) fn cross(log: &mut DriverLog, list: BufferList, loops: bool, tray: &mut Tray)
    requires sized { AreSized list.frames }
    requires log_room { 1 ≤ log.old.room }
    requires tray_room { CanCross tray.old }
    ensures log { log.new ≡ record { entries = log.old.entries ++ list.frames ∷ []; room = log.old.room - 1 } }
    ensures crosses { Crosses loops list tray.old tray.new }
{
    let span = tray.wire(&list);
    log.push(&list);
    indicate(loops, &list, span, tray);
    tray.pass_back(list, ListStatus::Success);
}
