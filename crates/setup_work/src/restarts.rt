//! A step of a restart.
ghost use Rattle.std.specs.Prelude.{◌≡◌, ◌+◌, ◌*◌, ◌≤◌, ◌<◌, ◌^◌, OnOk, OnErr, IfOk, if◌then◌else◌};
ghost use Rattle.journal_types.specs.declared.Event.TheVariants as event;
ghost use Rattle.journal_types.specs.declared.Reply.TheVariants as reply;
ghost use Rattle.flat_journal.specs.declared.types.FlatReply.TheVariants as flat_reply;
ghost use Rattle.flat_journal.specs.Shown.{reply_of};
ghost use Rattle.flat_journal.specs.Within.{ReplyWithin};
ghost use Rattle.book_parts.specs.Parts.{held_of, view_of};
ghost use Rattle.book_parts.specs.Events.{IsBook, IsIdle, DidEvent, IsUnmoved, CanEnd};
ghost use Rattle.phase_work.specs.Written.{each_written};
ghost use Rattle.setup_work.specs.Floors.{IsNumbered, CanRestart, floor_room, phase_when, floor_rows, step_rows, next_rows, next_reply};

use crate::floors::{Floor, floor_at, restart_floor};
use book_parts::BookParts;
use driver_calls::{FilterCalls, MiniportCalls, ProtocolCalls};
use driver_tray::Tray;
use flat_journal::{FlatReply, Room};
use journal_types::{PhaseOf, Refusal};
use ndis_base::{ModuleId, ModuleState, OutOfMemory, Phase};
use phase_work::floors::{write_bindings, write_states};
use phase_work::pauses::binding_count;

/// Writes that the stack is in another phase, where that is told.
fn write_when(tray: &mut Tray, told: bool, phase: Phase)
    requires { 1 ≤ tray.old.room.rows }
    ensures { tray.new ≡ each_written tray.old (phase_when told phase) }
{
    if told {
        tray.write_phase(PhaseOf::Stack(phase));
    }
}

/// Writes that the modules of a position restart and run.
fn write_floor(tray: &mut Tray, floor: Floor)
    requires number { IsNumbered floor }
    requires room { floor_room floor ≤ tray.old.room.rows }
    ensures { tray.new ≡ each_written tray.old (floor_rows floor) }
{
    match floor {
        Floor::Port => write_states(
            tray,
            ModuleId::Miniport,
            &[ModuleState::Restarting, ModuleState::Running],
        ),
        Floor::Middle(f) => write_states(
            tray,
            ModuleId::Filter(f),
            &[ModuleState::Restarting, ModuleState::Running],
        ),
        Floor::Top(bindings) => write_bindings(
            tray,
            0,
            bindings,
            &[ModuleState::Restarting, ModuleState::Running],
        ),
    }
}

/// Writes a step of a restart: whether the stack begins to restart, the position, and whether it is the top.
fn write_step(tray: &mut Tray, begins: bool, floor: Floor, top: bool)
    requires number { IsNumbered floor }
    requires room { floor_room floor + 2 ≤ tray.old.room.rows }
    ensures { tray.new ≡ each_written tray.old (step_rows begins floor top) }
{
    write_when(tray, begins, Phase::Restarting);
    write_floor(tray, floor);
    write_when(tray, top, Phase::Running);
}

/// The answer to a step of a restart.
fn reply_at(top: bool) -> FlatReply
    ensures { result ≡ if top then flat_reply.Running else flat_reply.Next }
{
    if top {
        FlatReply::Running
    } else {
        FlatReply::Next
    }
}

/// The lowest position that doesn't run restarts.
fn restart_step<M: MiniportCalls, P: ProtocolCalls, F: FilterCalls>(
    book: &mut BookParts<M, P, F>,
    bindings: u32,
    begins: bool,
) -> FlatReply
    requires { CanRestart (view_of M.state P.state F.state book.old) bindings }
    ensures tray { book.new.tray ≡ each_written book.old.tray (next_rows book.old.tray.net begins) }
    ensures held { held_of M.state P.state F.state book.new ≡ held_of M.state P.state F.state book.old }
    ensures answer { reply_of book.new.tray.payloads result ≡ next_reply book.old.tray.net }
    ensures within { ReplyWithin book.new.tray.payloads result }
{
    let count = book.tray.floors_count();
    let at = book.tray.running_floors();
    let top = at + 1 == count;
    let floor = floor_at(&book.tray, at, bindings);
    restart_floor(book, floor);
    write_step(&mut book.tray, begins, floor, top);
    reply_at(top)
}

/// The number of the filter that is attached next fits 64 bits, and so do those below it.
fn next_fits(tray: &Tray)
    ensures { tray.now.net.next.filter < 2 ^ 64 }
{
    let _next = tray.next_filter();
}

/// The modules of the lowest position that doesn't run restart and run (WDK, "Restarting a Driver Stack"). It also
/// answers want of memory where there are 2 to the power of 32 bindings or more.
pub fn restart_next<M: MiniportCalls, P: ProtocolCalls, F: FilterCalls>(
    book: &mut BookParts<M, P, F>,
) -> Result<FlatReply, OutOfMemory>
    requires book { IsBook (view_of M.state P.state F.state book.old) }
    requires idle { IsIdle (view_of M.state P.state F.state book.old) }
    ensures did { IfOk result (λ r. DidEvent (view_of M.state P.state F.state book.old) (view_of M.state P.state F.state book.new) event.RestartNext (reply_of (view_of M.state P.state F.state book.new).tray.payloads r)) }
    ensures within { IfOk result (λ r. ReplyWithin (view_of M.state P.state F.state book.new).tray.payloads r) }
    ensures turn { OnOk result (CanEnd (view_of M.state P.state F.state book.new)) }
    ensures memory { OnErr result (IsUnmoved (view_of M.state P.state F.state book.old) (view_of M.state P.state F.state book.new)) }
{
    next_fits(&book.tray);
    let Some(bindings) = binding_count(&book.tray) else {
        return Err(OutOfMemory);
    };
    book.tray.make_room(
        Room {
            turns: 1,
            rows: bindings as usize * 2 + 4,
            ..Room::none()
        },
        0,
    )?;
    match book.tray.phase() {
        Phase::Paused => Ok(restart_step(book, bindings, true)),
        Phase::Restarting => Ok(restart_step(book, bindings, false)),
        phase => Ok(FlatReply::Refused(Refusal::WrongPhase { phase })),
    }
}
