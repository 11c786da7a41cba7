//! The miniport indicates a status.
ghost use Rattle.std.specs.Prelude.{◌≡◌, OnOk, OnErr, IfOk};
ghost use Rattle.ndis_base.specs.declared.ModuleId.TheVariants.{Miniport};
ghost use Rattle.flat_journal.specs.Shown.{reply_of};
ghost use Rattle.flat_journal.specs.Within.{ReplyWithin};
ghost use Rattle.journal_types.specs.declared.Event.TheVariants as event;
ghost use Rattle.stack_rules.specs.Outcome.{status_no};
ghost use Rattle.driver_tray.specs.Tray.{indicated};
ghost use Rattle.book_parts.specs.Parts.{view_of};
ghost use Rattle.book_parts.specs.Events.{IsBook, IsIdle, DidEvent, IsUnmoved, CanEnd};
ghost use Rattle.status_work.specs.Rooms.{IsReady};

use book_parts::BookParts;
use driver_calls::{FilterCalls, MiniportCalls, ProtocolCalls};
use driver_tray::Tray;
use flat_journal::{FlatReply, Room};
use journal_types::Refusal;
use ndis_base::{ModuleId, ModuleState, OutOfMemory, StatusName};

/// Indicates a status of the next number up from the miniport.
fn send_up(tray: &mut Tray, name: StatusName)
    requires { IsReady 1 1 tray.old }
    ensures { tray.new ≡ indicated (record tray.old { caller = Miniport }) (status_no tray.old.net.next.status) name }
{
    tray.set_caller(ModuleId::Miniport);
    tray.indicate_status(tray.next_status_number(), name);
}

/// The miniport indicates a status (WDK, "Status Indications": NdisMIndicateStatusEx). It goes to the first filter
/// from below that has the status handler, or to the bindings. A miniport that is halted indicates none.
pub fn indicate_status<M: MiniportCalls, P: ProtocolCalls, F: FilterCalls>(
    book: &mut BookParts<M, P, F>,
    name: StatusName,
) -> Result<FlatReply, OutOfMemory>
    requires book { IsBook (view_of M.state P.state F.state book.old) }
    requires idle { IsIdle (view_of M.state P.state F.state book.old) }
    ensures did { IfOk result (λ r. DidEvent (view_of M.state P.state F.state book.old) (view_of M.state P.state F.state book.new) (event.Status name) (reply_of (view_of M.state P.state F.state book.new).tray.payloads r)) }
    ensures within { IfOk result (λ r. ReplyWithin (view_of M.state P.state F.state book.new).tray.payloads r) }
    ensures turn { OnOk result (CanEnd (view_of M.state P.state F.state book.new)) }
    ensures memory { OnErr result (IsUnmoved (view_of M.state P.state F.state book.old) (view_of M.state P.state F.state book.new)) }
{
    book.tray.make_room(
        Room {
            turns: 1,
            rows: 1,
            ..Room::none()
        },
        1,
    )?;
    match book.tray.state_of(ModuleId::Miniport) {
        ModuleState::Halted => Ok(FlatReply::Refused(Refusal::HaltedNow)),
        _ => {
            send_up(&mut book.tray, name);
            Ok(FlatReply::Ok)
        }
    }
}
