//! A pump of a status, by where it goes.
ghost use Rattle.std.specs.Prelude.{◌≡◌, Some, OnOk, OnErr};
ghost use Rattle.journal_types.specs.declared.Event.TheVariants as event;
ghost use Rattle.journal_types.specs.declared.Reply.TheVariants as reply;
ghost use Rattle.journal_types.specs.declared.Target.TheVariants.{Module};
ghost use Rattle.driver_tray.specs.Tray.{first_way, first_status};
ghost use Rattle.driver_tray.specs.declared.on_way.First.TheVariants as first;
ghost use Rattle.book_parts.specs.Parts.{view_of};
ghost use Rattle.book_parts.specs.Events.{IsBook, IsIdle, DidEvent, IsUnmoved, CanEnd};

use crate::bindings::work_bindings;
use crate::filters::work_filter;
use book_parts::BookParts;
use driver_calls::{FilterCalls, MiniportCalls, ProtocolCalls};
use journal_types::Target;
use ndis_base::{ModuleId, OutOfMemory};
use stack_rules::StatusAway;

/// Works the status that is first on its way, to a module. That is a filter: no status goes to the miniport
/// or to one binding.
fn work_module<M: MiniportCalls, P: ProtocolCalls, F: FilterCalls>(
    book: &mut BookParts<M, P, F>,
    status: StatusAway,
    module: ModuleId,
) -> Result<(), OutOfMemory>
    requires book { IsBook (view_of M.state P.state F.state book.old) }
    requires idle { IsIdle (view_of M.state P.state F.state book.old) }
    requires first { first_status (view_of M.state P.state F.state book.old).tray.queue ≡ Some status }
    requires to { status.to ≡ Module «module» }
    ensures did { OnOk result (DidEvent (view_of M.state P.state F.state book.old) (view_of M.state P.state F.state book.new) event.Pump reply.Moved) }
    ensures turn { OnOk result (CanEnd (view_of M.state P.state F.state book.new)) }
    ensures memory { OnErr result (IsUnmoved (view_of M.state P.state F.state book.old) (view_of M.state P.state F.state book.new)) }
{
    match module {
        ModuleId::Filter(f) => work_filter(book, status, f),
        ModuleId::Miniport => unreachable!(),
        ModuleId::Binding(_) => unreachable!(),
    }
}

/// Works the status that is first on its way.
fn work_first<M: MiniportCalls, P: ProtocolCalls, F: FilterCalls>(
    book: &mut BookParts<M, P, F>,
    status: StatusAway,
) -> Result<(), OutOfMemory>
    requires book { IsBook (view_of M.state P.state F.state book.old) }
    requires idle { IsIdle (view_of M.state P.state F.state book.old) }
    requires first { first_status (view_of M.state P.state F.state book.old).tray.queue ≡ Some status }
    ensures did { OnOk result (DidEvent (view_of M.state P.state F.state book.old) (view_of M.state P.state F.state book.new) event.Pump reply.Moved) }
    ensures turn { OnOk result (CanEnd (view_of M.state P.state F.state book.new)) }
    ensures memory { OnErr result (IsUnmoved (view_of M.state P.state F.state book.old) (view_of M.state P.state F.state book.new)) }
{
    match status.to {
        Target::Bindings => work_bindings(book, status),
        Target::Module(module) => work_module(book, status, module),
    }
}

/// A pump where a status is first on its way (WDK, "Status Indications"): the filter that it is at sees it and
/// indicates it further up, or all bindings see it. It also answers want of memory where there are 2 to the
/// power of 32 bindings or more, or a count comes near 2 to the power of 60, which no run can reach.
pub fn work_status<M: MiniportCalls, P: ProtocolCalls, F: FilterCalls>(
    book: &mut BookParts<M, P, F>,
) -> Result<(), OutOfMemory>
    requires book { IsBook (view_of M.state P.state F.state book.old) }
    requires idle { IsIdle (view_of M.state P.state F.state book.old) }
    requires first { first_way (view_of M.state P.state F.state book.old).tray.queue ≡ Some first.Status }
    ensures did { OnOk result (DidEvent (view_of M.state P.state F.state book.old) (view_of M.state P.state F.state book.new) event.Pump reply.Moved) }
    ensures turn { OnOk result (CanEnd (view_of M.state P.state F.state book.new)) }
    ensures memory { OnErr result (IsUnmoved (view_of M.state P.state F.state book.old) (view_of M.state P.state F.state book.new)) }
{
    let Some(status) = book.tray.first_status() else {
        unreachable!()
    };
    work_first(book, status)
}
