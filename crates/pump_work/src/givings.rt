//! A request that may be given, by the module that it is for.
ghost use Rattle.std.specs.Prelude.{◌≡◌, None, Some, OnOk, OnErr, IfOk};
ghost use Rattle.journal_types.specs.declared.Event.TheVariants as event;
ghost use Rattle.journal_types.specs.declared.Reply.TheVariants as reply;
ghost use Rattle.stack_rules.specs.Requests.{next_giving};
ghost use Rattle.driver_tray.specs.Tray.{first_way};
ghost use Rattle.book_parts.specs.Parts.{view_of};
ghost use Rattle.book_parts.specs.Events.{IsBook, IsIdle, DidEvent, IsUnmoved, CanEnd};
ghost use Rattle.pump_work.specs.Pumps.{Moves, MovesOne};

use answer_work::report;
use book_parts::BookParts;
use driver_calls::{FilterCalls, MiniportCalls, ProtocolCalls};
use ndis_base::{ModuleId, OutOfMemory};
use request_work::forward;
use stack_ledger::Giving;
use stack_rules::Request;

/// Gives a request to a module that takes requests: a filter forwards it, and the miniport answers it. No
/// binding takes one.
fn give_to<M: MiniportCalls, P: ProtocolCalls, F: FilterCalls>(
    book: &mut BookParts<M, P, F>,
    request: &Request,
    to: ModuleId,
) -> Result<(), OutOfMemory>
    requires book { IsBook (view_of M.state P.state F.state book.old) }
    requires idle { IsIdle (view_of M.state P.state F.state book.old) }
    requires none { first_way (view_of M.state P.state F.state book.old).tray.queue ≡ None }
    requires next { next_giving (view_of M.state P.state F.state book.old).tray.net ≡ Some (record { request = request.now; module_id = to }) }
    ensures did { OnOk result (DidEvent (view_of M.state P.state F.state book.old) (view_of M.state P.state F.state book.new) event.Pump reply.Moved) }
    ensures turn { OnOk result (CanEnd (view_of M.state P.state F.state book.new)) }
    ensures memory { OnErr result (IsUnmoved (view_of M.state P.state F.state book.old) (view_of M.state P.state F.state book.new)) }
{
    match to {
        ModuleId::Filter(f) => forward(book, request, f),
        ModuleId::Miniport => report(book, request),
        ModuleId::Binding(_) => unreachable!(),
    }
}

/// Gives the next request; a drain does so too.
fn give<M: MiniportCalls, P: ProtocolCalls, F: FilterCalls>(
    book: &mut BookParts<M, P, F>,
    giving: &Giving,
) -> Result<(), OutOfMemory>
    requires book { IsBook (view_of M.state P.state F.state book.old) }
    requires idle { IsIdle (view_of M.state P.state F.state book.old) }
    requires none { first_way (view_of M.state P.state F.state book.old).tray.queue ≡ None }
    requires next { next_giving (view_of M.state P.state F.state book.old).tray.net ≡ Some giving.now }
    ensures moves { OnOk result (MovesOne (view_of M.state P.state F.state book.old) (view_of M.state P.state F.state book.new)) }
    ensures memory { OnErr result (IsUnmoved (view_of M.state P.state F.state book.old) (view_of M.state P.state F.state book.new)) }
{
    give_to(book, giving.request(), giving.to())?;
    Ok(())
}

/// Gives the next request where one may be given, and answers whether one was.
pub(crate) fn give_next<M: MiniportCalls, P: ProtocolCalls, F: FilterCalls>(
    book: &mut BookParts<M, P, F>,
) -> Result<bool, OutOfMemory>
    requires book { IsBook (view_of M.state P.state F.state book.old) }
    requires idle { IsIdle (view_of M.state P.state F.state book.old) }
    requires none { first_way (view_of M.state P.state F.state book.old).tray.queue ≡ None }
    ensures moves { IfOk result (λ moved. Moves (view_of M.state P.state F.state book.old) (view_of M.state P.state F.state book.new) moved) }
    ensures memory { OnErr result (IsUnmoved (view_of M.state P.state F.state book.old) (view_of M.state P.state F.state book.new)) }
{
    match book.tray.next_giving() {
        None => Ok(false),
        Some(giving) => {
            give(book, &giving)?;
            Ok(true)
        }
    }
}
