//! A position is Paused.
ghost use Rattle.std.specs.Prelude.{◌≡◌, ◌≤◌, ◌+◌, [], ◌∷◌};
ghost use Rattle.stack_rules.specs.Pauses.{state_rows};
ghost use Rattle.phase_work.specs.Written.{each_written};
ghost use Rattle.pause_work.specs.Positions.{modules_of, width, next_width, IsNumbered, IsNextNumbered, next_rows, rows_of};

use crate::floor::Floor;
use driver_tray::Tray;
use journal_types::PhaseOf;
use ndis_base::{ModuleId, ModuleState, Phase};
use phase_work::floors::{write_bindings, write_states};

/// Writes that the modules of a position take a state.
fn write_floor(tray: &mut Tray, floor: Floor, state: ModuleState)
    requires numbered { IsNumbered floor }
    requires room { width floor ≤ tray.old.room.rows }
    ensures { tray.new ≡ each_written tray.old (state_rows (state ∷ []) (modules_of floor)) }
{
    match floor {
        Floor::Bindings(many) => write_bindings(tray, 0, many, &[state]),
        Floor::Filter(f) => write_states(tray, ModuleId::Filter(f), &[state]),
        Floor::Miniport => write_states(tray, ModuleId::Miniport, &[state]),
    }
}

/// Writes that the next position is Pausing, or after the last that the stack is Paused.
fn write_next(tray: &mut Tray, next: Option<Floor>)
    requires numbered { IsNextNumbered next }
    requires room { next_width next ≤ tray.old.room.rows }
    ensures { tray.new ≡ each_written tray.old (next_rows next) }
{
    match next {
        Some(floor) => write_floor(tray, floor, ModuleState::Pausing),
        None => tray.write_phase(PhaseOf::Stack(Phase::Paused)),
    }
}

/// Writes that a position is Paused and the next one Pausing (WDK, "Pausing a Driver Stack").
pub fn write_paused(tray: &mut Tray, floor: Floor, next: Option<Floor>)
    requires numbered { IsNumbered floor }
    requires next_numbered { IsNextNumbered next }
    requires room { width floor + next_width next ≤ tray.old.room.rows }
    ensures { tray.new ≡ each_written tray.old (rows_of floor next) }
{
    write_floor(tray, floor, ModuleState::Paused);
    write_next(tray, next);
}
