//! Room for a halt, and its rows.
ghost use Rattle.std.specs.Prelude.{◌≡◌, ◌+◌, ◌*◌, ◌≤◌, ◌<◌, ◌^◌, All, OnOk, drop, length};
ghost use Rattle.std.specs.Vec.{vec_len, vec_capacity};
ghost use Rattle.phase_work.specs.Written.{each_written};
ghost use Rattle.rewire_work.specs.Rested.{IsRoomed};
ghost use Rattle.halt_work.specs.Halted.{detached, halted_rows, AreNumbers, IsWide};

use driver_tray::Tray;
use flat_journal::Room;
use journal_types::PhaseOf;
use ndis_base::{ModuleId, ModuleState, OutOfMemory, Phase};
use phase_work::floors::{write_bindings, write_states};

/// Makes all room that a halt wants of the tray, and for the places that come back to the shelf.
pub fn make_room(tray: &mut Tray, shelf: &mut Vec<usize>, bindings: u32) -> Result<(), OutOfMemory>
    ensures tray { IsRoomed tray.old tray.new }
    ensures shelf { shelf.new.items ≡ shelf.old.items }
    ensures wide { OnOk result (IsWide bindings tray.new) }
    ensures places { OnOk result (vec_len shelf.new + 16 ≤ vec_capacity shelf.new) }
{
    shelf.reserve(16)?;
    tray.make_room(
        Room {
            turns: 1,
            rows: bindings as usize * 2 + 18,
            ..Room::none()
        },
        0,
    )
}

/// Writes that the filters of the configuration from a position on are detached.
fn write_detached(tray: &mut Tray, from: usize)
    requires numbers { AreNumbers tray.old.net.modules.order }
    requires within { from ≤ length tray.old.net.modules.order }
    requires room { length tray.old.net.modules.order ≤ tray.old.room.rows + from }
    ensures { tray.new ≡ each_written tray.old (detached (drop from tray.old.net.modules.order)) }
{
    let order = tray.order();
    if from >= order.len() {
        return;
    }
    let f = order[from];
    tray.write_phase(PhaseOf::Module(ModuleId::Filter(f), ModuleState::Detached));
    write_detached(tray, from + 1);
}

/// Writes that the bindings are closed, the filters detached and the miniport halted, and so the stack.
pub fn write_halted(tray: &mut Tray, bindings: u32)
    requires numbers { AreNumbers tray.old.net.modules.order }
    requires room { bindings * 2 + length tray.old.net.modules.order + 2 ≤ tray.old.room.rows }
    ensures { tray.new ≡ each_written tray.old (halted_rows bindings tray.old.net.modules.order) }
{
    write_bindings(
        tray,
        0,
        bindings,
        &[ModuleState::Closing, ModuleState::Unbound],
    );
    write_detached(tray, 0);
    write_states(tray, ModuleId::Miniport, &[ModuleState::Halted]);
    tray.write_phase(PhaseOf::Stack(Phase::Halted));
}
