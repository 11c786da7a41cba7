//! The modules of a position take states.
ghost use Rattle.std.specs.Prelude.{◌≡◌, ◌+◌, ◌*◌, ◌≤◌, ◌<◌, ◌^◌, length, map};
ghost use Rattle.stack_rules.specs.Pauses.{state_row, state_rows};
ghost use Rattle.stack_ledger.specs.Bare.{filter_number};
ghost use Rattle.phase_work.specs.Written.{each_written, bindings_from, begin_rows};

use driver_tray::Tray;
use journal_types::PhaseOf;
use ndis_base::{ModuleId, ModuleState, Phase};

/// Writes that a module takes some states one after the other.
pub fn write_states(tray: &mut Tray, id: ModuleId, states: &[ModuleState])
    requires filter { filter_number id + 1 < 2 ^ 64 }
    requires room { length states.now ≤ tray.old.room.rows }
    ensures { tray.new ≡ each_written tray.old (map (λ s. state_row s id) states.now) }
{
    if let [state, others @ ..] = states {
        tray.write_phase(PhaseOf::Module(id, *state));
        write_states(tray, id, others);
    }
}

/// Writes that so many bindings, from this one on, take some states.
pub fn write_bindings(tray: &mut Tray, first: u32, many: u32, states: &[ModuleState])
    requires numbers { first + many < 2 ^ 32 }
    requires room { many * length states.now ≤ tray.old.room.rows }
    ensures { tray.new ≡ each_written tray.old (state_rows states.now (bindings_from first many)) }
{
    if many > 0 {
        write_states(tray, ModuleId::Binding(first), states);
        write_bindings(tray, first + 1, many - 1, states);
    }
}

/// Writes that a stack pauses, which its bindings do first (WDK, "Pausing a Driver Stack").
pub fn write_begin(tray: &mut Tray, bindings: u32)
    requires room { bindings + 1 ≤ tray.old.room.rows }
    ensures { tray.new ≡ each_written tray.old (begin_rows bindings) }
{
    tray.write_phase(PhaseOf::Stack(Phase::Pausing));
    write_bindings(tray, 0, bindings, &[ModuleState::Pausing]);
}
