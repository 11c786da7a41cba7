//! A request at the miniport.
ghost use Rattle.std.specs.Prelude.{◌≡◌, None, Some, IsSome, OnOk, OnErr};
ghost use Rattle.ndis_base.specs.declared.ModuleId.TheVariants.{Miniport};
ghost use Rattle.journal_types.specs.declared.Event.TheVariants as event;
ghost use Rattle.journal_types.specs.declared.Reply.TheVariants as reply;
ghost use Rattle.stack_rules.specs.OidTable.{report_of};
ghost use Rattle.stack_rules.specs.Requests.{next_giving};
ghost use Rattle.driver_calls.specs.Miniports.{MayAnswer};
ghost use Rattle.driver_tray.specs.Tray.{first_way};
ghost use Rattle.book_parts.specs.Parts.{view_of};
ghost use Rattle.book_parts.specs.Events.{IsBook, IsIdle, DidEvent, IsUnmoved, CanEnd};
ghost use Rattle.filter_work.specs.Works.{IsRoomed};
ghost use Rattle.answer_work.specs.Rooms.{IsReady};
ghost use Rattle.answer_work.specs.Works.{Reports};

use crate::tellings::{room_at, tell_binding};
use book_parts::BookParts;
use driver_calls::{FilterCalls, MiniportCalls, OidAnswer, ProtocolCalls};
use driver_tray::Tray;
use flat_journal::Room;
use ndis_base::{ModuleId, OutOfMemory};
use stack_rules::Request;

const FAR: u64 = 1 << 60;

/// Makes all room that a request at the miniport wants.
fn make_room<M: MiniportCalls>(miniport: &M, tray: &mut Tray) -> Result<(), OutOfMemory>
    requires { IsSome (M.state miniport.now).port }
    ensures tray { IsRoomed tray.old tray.new }
    ensures may { OnOk result (MayAnswer (M.state miniport.now)) }
    ensures ready { OnOk result (IsReady 2 8 tray.new) }
{
    if miniport.served().oid >= FAR {
        return Err(OutOfMemory);
    }
    tray.make_room(
        Room {
            turns: 1,
            rows: 2,
            frames: 1,
            bytes: 8,
            ..Room::none()
        },
        1,
    )?;
    Ok(())
}

/// The miniport is given a request, which is done with what it answers.
fn answer<M: MiniportCalls>(miniport: &mut M, tray: &mut Tray, request: &Request) -> OidAnswer
    requires may { MayAnswer (M.state miniport.old) }
    requires ready { IsReady 2 8 tray.old }
    ensures status { result.status ≡ (report_of tray.old.net request.now).status }
    ensures value { result.value ≡ (report_of tray.old.net request.now).value }
    ensures reports { Reports request.now (M.state miniport.old) tray.old (M.state miniport.new) tray.new }
{
    tray.set_caller(ModuleId::Miniport);
    tray.give_request(request.request, ModuleId::Miniport);
    let answer = miniport.oid(request, tray);
    tray.complete(request.request, answer.status, &answer.value);
    answer
}

/// A pump where nothing is on its way, whose next request is for the miniport: it is given to the miniport,
/// which answers it at once. Its binding is told where it is no clone; else the answer is on its way to the
/// filter that made the clone. It also answers want of memory where a count comes near 2 to the power of 60,
/// which no run can reach.
pub fn report<M: MiniportCalls, P: ProtocolCalls, F: FilterCalls>(
    book: &mut BookParts<M, P, F>,
    request: &Request,
) -> Result<(), OutOfMemory>
    requires book { IsBook (view_of M.state P.state F.state book.old) }
    requires idle { IsIdle (view_of M.state P.state F.state book.old) }
    requires none { first_way (view_of M.state P.state F.state book.old).tray.queue ≡ None }
    requires next { next_giving (view_of M.state P.state F.state book.old).tray.net ≡ Some (record { request = request.now; module_id = Miniport }) }
    ensures did { OnOk result (DidEvent (view_of M.state P.state F.state book.old) (view_of M.state P.state F.state book.new) event.Pump reply.Moved) }
    ensures turn { OnOk result (CanEnd (view_of M.state P.state F.state book.new)) }
    ensures memory { OnErr result (IsUnmoved (view_of M.state P.state F.state book.old) (view_of M.state P.state F.state book.new)) }
{
    room_at(book.protocols.as_slice(), request.binding)?;
    make_room(&book.miniport, &mut book.tray)?;
    let answer = answer(&mut book.miniport, &mut book.tray, request);
    tell_binding(
        &mut book.protocols,
        request.parent,
        request.binding,
        request.request,
        answer.status,
        &answer.value,
    );
    Ok(())
}
