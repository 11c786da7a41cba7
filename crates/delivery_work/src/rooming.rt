//! All room that a receive at the bindings wants.
ghost use Rattle.std.specs.Prelude.{◌≡◌, ◌≤◌, OnOk, OnErr, length, map};
ghost use Rattle.std.specs.List.{All};
ghost use Rattle.book_parts.specs.Parts.{view_of};
ghost use Rattle.binding_work.specs.Homes.{IsRoomed};
ghost use Rattle.binding_work.specs.Owns.{TrayRoomed};
ghost use Rattle.delivery_work.specs.Desks.{CanTake};
ghost use Rattle.delivery_work.specs.Works.{IsReadyForAll, IsTrayReady};

use book_parts::BookParts;
use driver_calls::{FilterCalls, MiniportCalls, ProtocolCalls};
use driver_tray::Tray;
use flat_journal::Room;
use ndis_base::OutOfMemory;

const FAR: u64 = 1 << 60;

/// Makes the room that one delivery wants of a protocol.
fn room_in<P: ProtocolCalls>(protocol: &mut P) -> Result<(), OutOfMemory>
    ensures state { P.state protocol.new ≡ P.state protocol.old }
    ensures room { OnOk result (1 ≤ P.room protocol.new) }
    ensures count { OnOk result (CanTake (P.state protocol.new)) }
{
    let served = protocol.served();
    if served.receive >= FAR || served.receive_lent >= FAR {
        return Err(OutOfMemory);
    }
    protocol.make_room(1518)
}

/// Makes that room in each protocol.
fn rooms_in<P: ProtocolCalls>(protocols: &mut Vec<P>) -> Result<(), OutOfMemory>
    ensures states { map P.state protocols.new.items ≡ map P.state protocols.old.items }
    ensures rooms { OnOk result (All (λ r. 1 ≤ r) (map P.room protocols.new.items)) }
    ensures counts { OnOk result (All CanTake (map P.state protocols.new.items)) }
{
    for i in 0..protocols.len() {
        room_in(&mut protocols[i])?;
    }
    Ok(())
}

/// Makes the room in the tray that deliveries to so many bindings want.
fn tray_room(tray: &mut Tray, many: u32) -> Result<(), OutOfMemory>
    ensures ready { OnOk result (IsTrayReady many tray.new) }
    ensures roomed { TrayRoomed tray.old tray.new }
{
    let bindings = many as usize;
    tray.make_room(
        Room {
            turns: 1,
            rows: 3 * bindings + 1,
            frames: 8 * bindings,
            bytes: 8 * 1518 * bindings,
            ..Room::none()
        },
        bindings + 1,
    )?;
    if tray.next_list().0 > FAR - many as u64 {
        return Err(OutOfMemory);
    }
    Ok(())
}

/// Makes all room that a receive at the bindings wants, where there are so many. It also answers want of
/// memory where a count comes near 2 to the power of 60, which no run can reach.
pub fn make_all_room<M: MiniportCalls, P: ProtocolCalls, F: FilterCalls>(
    book: &mut BookParts<M, P, F>,
    many: u32,
) -> Result<(), OutOfMemory>
    ensures roomed { IsRoomed (view_of M.state P.state F.state book.old) (view_of M.state P.state F.state book.new) }
    ensures ready { OnOk result (IsReadyForAll many (view_of M.state P.state F.state book.new)) }
    ensures rooms { OnOk result (All (λ r. 1 ≤ r) (map P.room book.new.protocols.items)) }
{
    rooms_in(&mut book.protocols)?;
    tray_room(&mut book.tray, many)
}
