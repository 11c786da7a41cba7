//! Room for a change of the filters, and its rows.
ghost use Rattle.std.specs.Prelude.{◌≡◌, ◌+◌, ◌≤◌, ◌<◌, ◌^◌, OnOk, length};
ghost use Rattle.std.specs.Vec.{vec_len, vec_capacity};
ghost use Rattle.rewire_work.specs.Rested.{IsRoomed, IsReady};
ghost use Rattle.rewire_work.specs.Seated.{attaching, reordered};

use driver_tray::Tray;
use flat_journal::Room;
use journal_types::PhaseOf;
use ndis_base::{ConfigNo, ModuleId, ModuleState, OutOfMemory};

/// Makes all room that a change of the filters wants of the tray, and for one more seat or place.
pub fn make_room<T>(tray: &mut Tray, places: &mut Vec<T>) -> Result<(), OutOfMemory>
    ensures tray { IsRoomed tray.old tray.new }
    ensures places { places.new.items ≡ places.old.items }
    ensures ready { OnOk result (IsReady tray.new) }
    ensures place { OnOk result (vec_len places.new < vec_capacity places.new) }
{
    places.reserve(1)?;
    tray.make_room(
        Room {
            turns: 1,
            rows: 4,
            filters: 16,
            ..Room::none()
        },
        0,
    )
}

/// The same for one more seat and one more place on the shelf.
pub fn make_rooms(
    tray: &mut Tray,
    seats: &mut Vec<(u64, usize)>,
    shelf: &mut Vec<usize>,
) -> Result<(), OutOfMemory>
    ensures tray { IsRoomed tray.old tray.new }
    ensures seats { seats.new.items ≡ seats.old.items }
    ensures shelf { shelf.new.items ≡ shelf.old.items }
    ensures ready { OnOk result (IsReady tray.new) }
    ensures seat { OnOk result (vec_len seats.new < vec_capacity seats.new) }
    ensures place { OnOk result (vec_len shelf.new < vec_capacity shelf.new) }
{
    shelf.reserve(1)?;
    make_room(tray, seats)
}

/// Writes that a filter is attached.
pub fn write_attached(tray: &mut Tray, f: u64)
    requires number { f + 1 < 2 ^ 64 }
    requires room { 2 ≤ tray.old.room.rows }
    ensures { tray.new ≡ attaching tray.old f }
{
    tray.write_phase(PhaseOf::Module(ModuleId::Filter(f), ModuleState::Attaching));
    tray.write_phase(PhaseOf::Module(ModuleId::Filter(f), ModuleState::Paused));
}

/// Writes the next configuration, with the order of its filters.
pub fn write_order(tray: &mut Tray, order: &[u64])
    requires number { tray.old.net.modules.config + 1 < 2 ^ 64 }
    requires few { length order.now ≤ 16 }
    requires filters { length order.now ≤ tray.old.room.filters }
    requires room { 1 ≤ tray.old.room.rows }
    ensures { tray.new ≡ reordered tray.old order.now }
{
    let config = tray.config();
    tray.write_config(ConfigNo(config.0 + 1), order);
}
