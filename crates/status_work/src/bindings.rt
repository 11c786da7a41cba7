//! A status at the bindings.
ghost use Rattle.std.specs.Prelude.{◌≡◌, ◌≤◌, Some, OnOk, OnErr, length, map};
ghost use Rattle.std.specs.List.{All};
ghost use Rattle.journal_types.specs.declared.Event.TheVariants as event;
ghost use Rattle.journal_types.specs.declared.Reply.TheVariants as reply;
ghost use Rattle.journal_types.specs.declared.Target.TheVariants.{Bindings};
ghost use Rattle.driver_tray.specs.Tray.{first_status};
ghost use Rattle.book_parts.specs.Parts.{view_of};
ghost use Rattle.book_parts.specs.Events.{IsBook, IsIdle, DidEvent, IsUnmoved, CanEnd};
ghost use Rattle.filter_work.specs.Works.{IsRoomed};
ghost use Rattle.status_work.specs.Rooms.{CanHear, IsReady};
ghost use Rattle.status_work.specs.Told.{heard_by_first, seen_by_first};

use book_parts::BookParts;
use delivery_work::bindings::count_of;
use driver_calls::{FilterCalls, MiniportCalls, ProtocolCalls};
use driver_tray::Tray;
use flat_journal::Room;
use ndis_base::{ModuleId, OutOfMemory};
use stack_rules::StatusAway;

const FAR: u64 = 1 << 60;

/// That each protocol can count one more status.
fn room_in<P: ProtocolCalls>(protocols: &[P]) -> Result<(), OutOfMemory>
    ensures { OnOk result (All CanHear (map P.state protocols.now)) }
{
    for protocol in protocols {
        if protocol.served().status >= FAR {
            return Err(OutOfMemory);
        }
    }
    Ok(())
}

/// Makes all room that a status at so many bindings wants.
fn make_room<P: ProtocolCalls>(
    protocols: &[P],
    tray: &mut Tray,
    many: u32,
) -> Result<(), OutOfMemory>
    ensures tray { IsRoomed tray.old tray.new }
    ensures counts { OnOk result (All CanHear (map P.state protocols.now)) }
    ensures ready { OnOk result (IsReady many 0 tray.new) }
{
    room_in(protocols)?;
    tray.make_room(
        Room {
            turns: 1,
            rows: many as usize,
            ..Room::none()
        },
        0,
    )?;
    Ok(())
}

/// Each of so many bindings sees the status, in rising order, and its protocol is told of it.
fn tell_all<P: ProtocolCalls>(
    protocols: &mut Vec<P>,
    tray: &mut Tray,
    status: StatusAway,
    many: u32,
)
    requires all { many ≡ length protocols.old.items }
    requires counts { All CanHear (map P.state protocols.old.items) }
    requires room { many ≤ tray.old.room.rows }
    ensures protocols { map P.state protocols.new.items ≡ heard_by_first many (map P.state protocols.old.items) }
    ensures tray { tray.new ≡ seen_by_first many status.number tray.old }
{
    for binding in 0..many {
        tray.see(status.number, ModuleId::Binding(binding));
        protocols[binding as usize].status(status.name);
    }
}

/// A pump whose first thing is a status on its way to the bindings: all of them see it, in rising order. It
/// also answers want of memory where there are 2 to the power of 32 bindings or more, or a count comes near
/// 2 to the power of 60, which no run can reach.
pub fn work_bindings<M: MiniportCalls, P: ProtocolCalls, F: FilterCalls>(
    book: &mut BookParts<M, P, F>,
    status: StatusAway,
) -> Result<(), OutOfMemory>
    requires book { IsBook (view_of M.state P.state F.state book.old) }
    requires idle { IsIdle (view_of M.state P.state F.state book.old) }
    requires first { first_status (view_of M.state P.state F.state book.old).tray.queue ≡ Some status }
    requires to { status.to ≡ Bindings }
    ensures did { OnOk result (DidEvent (view_of M.state P.state F.state book.old) (view_of M.state P.state F.state book.new) event.Pump reply.Moved) }
    ensures turn { OnOk result (CanEnd (view_of M.state P.state F.state book.new)) }
    ensures memory { OnErr result (IsUnmoved (view_of M.state P.state F.state book.old) (view_of M.state P.state F.state book.new)) }
{
    let Some(many) = count_of(book.protocols.len()) else {
        return Err(OutOfMemory);
    };
    make_room(book.protocols.as_slice(), &mut book.tray, many)?;
    tell_all(&mut book.protocols, &mut book.tray, status, many);
    Ok(())
}
