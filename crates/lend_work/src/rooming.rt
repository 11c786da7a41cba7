//! All room that a lent list wants.
ghost use Rattle.std.specs.Prelude.{◌≡◌, ◌≤◌, ◌+◌, OnOk, OnErr, length, map};
ghost use Rattle.std.specs.List.{All};
ghost use Rattle.book_parts.specs.Parts.{view_of};
ghost use Rattle.binding_work.specs.Homes.{IsRoomed};
ghost use Rattle.binding_work.specs.Owns.{TrayRoomed};
ghost use Rattle.lend_work.specs.Lends.{CanVisit, IsTrayReady, IsReady};

use book_parts::BookParts;
use delivery_work::rooming::make_all_room as make_delivery_room;
use driver_calls::{FilterCalls, MiniportCalls, ProtocolCalls};
use driver_tray::Tray;
use flat_journal::Room;
use ndis_base::OutOfMemory;

const FAR: u64 = 1 << 60;

const MANY: usize = 1 << 60;

/// Makes the room that a lent list wants of a filter.
fn room_in<F: FilterCalls>(filter: &mut F) -> Result<(), OutOfMemory>
    ensures state { F.state filter.new ≡ F.state filter.old }
    ensures room { OnOk result (1 ≤ F.room filter.new) }
    ensures count { OnOk result (CanVisit (F.state filter.new)) }
{
    let served = filter.served();
    if served.receive_lent >= FAR {
        return Err(OutOfMemory);
    }
    filter.make_room(1518)
}

/// Makes that room in each filter.
fn rooms_in<F: FilterCalls>(filters: &mut Vec<F>) -> Result<(), OutOfMemory>
    ensures states { map F.state filters.new.items ≡ map F.state filters.old.items }
    ensures rooms { OnOk result (All (λ r. 1 ≤ r) (map F.room filters.new.items)) }
    ensures counts { OnOk result (All CanVisit (map F.state filters.new.items)) }
{
    for i in 0..filters.len() {
        room_in(&mut filters[i])?;
    }
    Ok(())
}

/// Makes the room in the tray that a list wants which is lent to all filters of the order and to so many bindings.
fn tray_room(tray: &mut Tray, many: u32) -> Result<(), OutOfMemory>
    ensures ready { OnOk result (IsTrayReady many tray.new) }
    ensures roomed { TrayRoomed tray.old tray.new }
{
    let filters = tray.order().len();
    let bindings = many as usize;
    if filters > MANY {
        return Err(OutOfMemory);
    }
    tray.make_room(
        Room {
            turns: 1,
            rows: filters + 3 * bindings + 6,
            frames: 8 * bindings + 8,
            bytes: 8 * 1518 * bindings + 8 * 1518,
            ..Room::none()
        },
        bindings + 2,
    )?;
    if tray.next_list().0 > FAR - many as u64 - 2 || tray.received() > FAR - 9 {
        return Err(OutOfMemory);
    }
    Ok(())
}

/// Makes all room that a lent list wants, where there are so many bindings. It also answers want of memory where a count
/// comes near 2 to the power of 60, which no run can reach.
pub(crate) fn make_room<M: MiniportCalls, P: ProtocolCalls, F: FilterCalls>(
    book: &mut BookParts<M, P, F>,
    many: u32,
) -> Result<(), OutOfMemory>
    ensures roomed { IsRoomed (view_of M.state P.state F.state book.old) (view_of M.state P.state F.state book.new) }
    ensures ready { OnOk result (IsReady many (view_of M.state P.state F.state book.new)) }
    ensures protocols { OnOk result (All (λ r. 1 ≤ r) (map P.room book.new.protocols.items)) }
    ensures filters { OnOk result (All (λ r. 1 ≤ r) (map F.room book.new.filters.items)) }
{
    make_delivery_room(book, many)?;
    rooms_in(&mut book.filters)?;
    tray_room(&mut book.tray, many)
}
