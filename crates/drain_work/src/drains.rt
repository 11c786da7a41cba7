//! A drain where nothing is on its way.
ghost use Rattle.std.specs.Prelude.{◌≡◌, ◌≤◌, ◌≢◌, ◌++◌, ◌^◌, [], None, false, length, IfSome, IfNone, OnOk, OnErr, IfOk};
ghost use Rattle.journal_types.specs.declared.Event.TheVariants as event;
ghost use Rattle.ndis_base.specs.declared.Phase.TheVariants as phase;
ghost use Rattle.flat_journal.specs.Shown.{reply_of};
ghost use Rattle.flat_journal.specs.Within.{ReplyWithin};
ghost use Rattle.stack_rules.specs.Requests.{next_giving};
ghost use Rattle.stack_rules.specs.Tests.{is_virtual, phase_is_running};
ghost use Rattle.book_parts.specs.Parts.{view_of};
ghost use Rattle.book_parts.specs.Events.{IsBook, IsIdle, DidEvent, IsUnmoved, CanEnd};
ghost use Rattle.drain_work.specs.Drains.{IsResting, IsSame, Gives, given_rows, DrainsRing};

use crate::bindings::drain_bindings;
use crate::filters::drain_filters;
use book_parts::BookParts;
use driver_calls::{FilterCalls, MiniportCalls, ProtocolCalls};
use driver_tray::Tray;
use flat_journal::{FlatReply, Room};
use miniport_work::works::transmit;
use ndis_base::{OutOfMemory, Phase};

/// How many bindings the stack has; None where they are 2 to the power of 32 or more, which no number of a binding
/// tells apart.
fn binding_count(tray: &Tray) -> Option<u32>
    ensures all { IfSome result (λ count. count ≡ length tray.now.net.head.bindings) }
    ensures many { IfNone result (2 ^ 32 ≤ length tray.now.net.head.bindings) }
{
    let count = tray.head().bindings.items().len();
    if count > u32::MAX as usize {
        return None;
    }
    Some(count as u32)
}

/// The first protocol or filter from the top that keeps ready lists gives them away. It answers whether
/// there is one.
fn drain_modules<M: MiniportCalls, P: ProtocolCalls, F: FilterCalls>(
    book: &mut BookParts<M, P, F>,
) -> Result<bool, OutOfMemory>
    requires rests { IsResting (view_of M.state P.state F.state book.old) }
    ensures gives { IfOk result (λ moved. Gives (view_of M.state P.state F.state book.old) (view_of M.state P.state F.state book.new) (given_rows (view_of M.state P.state F.state book.old).tray.net) moved) }
    ensures memory { OnErr result (IsSame (view_of M.state P.state F.state book.old) (view_of M.state P.state F.state book.new)) }
{
    let Some(bindings) = binding_count(&book.tray) else {
        return Err(OutOfMemory);
    };
    if drain_bindings(book, 0, bindings)? {
        return Ok(true);
    }
    let filters = book.tray.order().len();
    drain_filters(book, 0, filters)
}

/// Makes room for a turn without rows.
fn rest<M: MiniportCalls, P: ProtocolCalls, F: FilterCalls>(
    book: &mut BookParts<M, P, F>,
) -> Result<(), OutOfMemory>
    requires { IsBook (view_of M.state P.state F.state book.old) }
    ensures same { IsSame (view_of M.state P.state F.state book.old) (view_of M.state P.state F.state book.new) }
    ensures turn { OnOk result (CanEnd (view_of M.state P.state F.state book.new)) }
{
    book.tray.make_room(
        Room {
            turns: 1,
            ..Room::none()
        },
        0,
    )?;
    Ok(())
}

/// The ring gives its oldest list away, where no module above keeps ready lists.
fn drain_ring<M: MiniportCalls, P: ProtocolCalls, F: FilterCalls>(
    book: &mut BookParts<M, P, F>,
) -> Result<FlatReply, OutOfMemory>
    requires book { IsBook (view_of M.state P.state F.state book.old) }
    requires idle { IsIdle (view_of M.state P.state F.state book.old) }
    requires drains { DrainsRing (view_of M.state P.state F.state book.old) }
    ensures did { IfOk result (λ r. DidEvent (view_of M.state P.state F.state book.old) (view_of M.state P.state F.state book.new) event.Drain (reply_of (view_of M.state P.state F.state book.new).tray.payloads r)) }
    ensures within { IfOk result (λ r. ReplyWithin (view_of M.state P.state F.state book.new).tray.payloads r) }
    ensures turn { OnOk result (CanEnd (view_of M.state P.state F.state book.new)) }
    ensures memory { OnErr result (IsUnmoved (view_of M.state P.state F.state book.old) (view_of M.state P.state F.state book.new)) }
{
    let running = matches!(book.tray.phase(), Phase::Running);
    match transmit(book, running)? {
        Some(_list) => Ok(FlatReply::Moved),
        None => Ok(FlatReply::Idle),
    }
}

/// The same of all modules, in a stack that isn't Halted.
fn drain_live<M: MiniportCalls, P: ProtocolCalls, F: FilterCalls>(
    book: &mut BookParts<M, P, F>,
) -> Result<FlatReply, OutOfMemory>
    requires rests { IsResting (view_of M.state P.state F.state book.old) }
    requires requests { next_giving (view_of M.state P.state F.state book.old).tray.net ≡ None }
    requires rings { is_virtual (view_of M.state P.state F.state book.old).tray.net.head.kind ≡ false }
    ensures did { IfOk result (λ r. DidEvent (view_of M.state P.state F.state book.old) (view_of M.state P.state F.state book.new) event.Drain (reply_of (view_of M.state P.state F.state book.new).tray.payloads r)) }
    ensures within { IfOk result (λ r. ReplyWithin (view_of M.state P.state F.state book.new).tray.payloads r) }
    ensures turn { OnOk result (CanEnd (view_of M.state P.state F.state book.new)) }
    ensures memory { OnErr result (IsUnmoved (view_of M.state P.state F.state book.old) (view_of M.state P.state F.state book.new)) }
{
    if drain_modules(book)? {
        return Ok(FlatReply::Moved);
    }
    drain_ring(book)
}

/// A drain where nothing is on its way and no request may be given: the first module from the top that keeps
/// ready lists gives them away. A protocol that retains lists returns them (WDK, "Receiving Data in Protocol
/// Drivers": NdisReturnNetBufferLists), a hold filter passes them on, and a ring or loop adapter transmits its
/// oldest. It also answers want of memory where there are 2 to the power of 32 bindings or more. Drains of
/// virtual miniports are left out.
pub fn drain_still<M: MiniportCalls, P: ProtocolCalls, F: FilterCalls>(
    book: &mut BookParts<M, P, F>,
) -> Result<FlatReply, OutOfMemory>
    requires book { IsBook (view_of M.state P.state F.state book.old) }
    requires idle { IsIdle (view_of M.state P.state F.state book.old) }
    requires quiet { (view_of M.state P.state F.state book.old).tray.queue ≡ [] }
    requires requests { next_giving (view_of M.state P.state F.state book.old).tray.net ≡ None }
    requires rings { is_virtual (view_of M.state P.state F.state book.old).tray.net.head.kind ≡ false }
    ensures did { IfOk result (λ r. DidEvent (view_of M.state P.state F.state book.old) (view_of M.state P.state F.state book.new) event.Drain (reply_of (view_of M.state P.state F.state book.new).tray.payloads r)) }
    ensures within { IfOk result (λ r. ReplyWithin (view_of M.state P.state F.state book.new).tray.payloads r) }
    ensures turn { OnOk result (CanEnd (view_of M.state P.state F.state book.new)) }
    ensures memory { OnErr result (IsUnmoved (view_of M.state P.state F.state book.old) (view_of M.state P.state F.state book.new)) }
{
    match book.tray.phase() {
        Phase::Halted => {
            rest(book)?;
            Ok(FlatReply::Idle)
        }
        _ => drain_live(book),
    }
}
