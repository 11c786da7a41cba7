//! A stack is initialised.
ghost use Rattle.std.specs.Prelude.{◌≡◌, ◌+◌, ◌*◌, ◌≤◌, ◌<◌, OnOk, OnErr, IfOk};
ghost use Rattle.journal_types.specs.declared.Event.TheVariants as event;
ghost use Rattle.flat_journal.specs.Shown.{reply_of};
ghost use Rattle.flat_journal.specs.Within.{ReplyWithin};
ghost use Rattle.book_parts.specs.Parts.{view_of};
ghost use Rattle.book_parts.specs.Events.{IsBook, IsIdle, DidEvent, IsUnmoved, CanEnd};
ghost use Rattle.setup_work.specs.SetUp.{written_up};

use crate::drivers::set_up;
use book_parts::BookParts;
use driver_calls::{AttachFault, FilterCalls, MiniportCalls, ProtocolCalls};
use driver_tray::Tray;
use flat_journal::{FlatReply, Room};
use journal_types::{PhaseOf, Refusal};
use ndis_base::{ConfigNo, ModuleId, ModuleState, OutOfMemory, Phase};
use phase_work::floors::{write_bindings, write_states};
use phase_work::pauses::binding_count;
use std::alloc::Global;

/// Writes that the miniport and the bindings are Paused, and so the stack, which has its first configuration.
fn write_up(tray: &mut Tray, bindings: u32)
    requires room { bindings * 2 + 3 ≤ tray.old.room.rows }
    ensures { tray.new ≡ written_up tray.old bindings }
{
    write_states(tray, ModuleId::Miniport, &[ModuleState::Paused]);
    write_bindings(
        tray,
        0,
        bindings,
        &[ModuleState::Opening, ModuleState::Paused],
    );
    tray.write_phase(PhaseOf::Stack(Phase::Paused));
    tray.write_config(ConfigNo(1), &[]);
}

/// A Halted stack is initialised: its miniport with the port of the head, and then each protocol is opened (WDK,
/// "Initializing a Miniport Driver", "Binding to an Adapter"). The miniport may refuse. After want of memory all is as
/// before; that is also answered where there are 2 to the power of 32 bindings or more.
pub fn initialize<M: MiniportCalls, P: ProtocolCalls, F: FilterCalls>(
    book: &mut BookParts<M, P, F>,
    alloc: Global,
) -> Result<FlatReply, OutOfMemory>
    requires book { IsBook (view_of M.state P.state F.state book.old) }
    requires idle { IsIdle (view_of M.state P.state F.state book.old) }
    ensures did { IfOk result (λ r. DidEvent (view_of M.state P.state F.state book.old) (view_of M.state P.state F.state book.new) event.Initialize (reply_of (view_of M.state P.state F.state book.new).tray.payloads r)) }
    ensures within { IfOk result (λ r. ReplyWithin (view_of M.state P.state F.state book.new).tray.payloads r) }
    ensures turn { OnOk result (CanEnd (view_of M.state P.state F.state book.new)) }
    ensures memory { OnErr result (IsUnmoved (view_of M.state P.state F.state book.old) (view_of M.state P.state F.state book.new)) }
{
    let Some(bindings) = binding_count(&book.tray) else {
        return Err(OutOfMemory);
    };
    book.tray.make_room(
        Room {
            turns: 1,
            rows: bindings as usize * 2 + 3,
            ..Room::none()
        },
        0,
    )?;
    match book.tray.phase() {
        Phase::Halted => match set_up(&mut book.miniport, &mut book.protocols, &book.tray, alloc) {
            Ok(()) => {
                write_up(&mut book.tray, bindings);
                Ok(FlatReply::Ok)
            }
            Err(AttachFault::Refused) => Ok(FlatReply::Refused(Refusal::InitRefused)),
            Err(AttachFault::Memory) => Err(OutOfMemory),
        },
        phase => Ok(FlatReply::Refused(Refusal::WrongPhase { phase })),
    }
}
