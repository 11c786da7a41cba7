//! A pause begins.
ghost use Rattle.std.specs.Prelude.{◌≡◌, ◌≤◌, ◌^◌, length, IfSome, IfNone, OnOk, OnErr, IfOk};
ghost use Rattle.journal_types.specs.declared.Event.TheVariants as event;
ghost use Rattle.flat_journal.specs.Shown.{reply_of};
ghost use Rattle.flat_journal.specs.Within.{ReplyWithin};
ghost use Rattle.book_parts.specs.Parts.{view_of};
ghost use Rattle.book_parts.specs.Events.{IsBook, IsIdle, DidEvent, IsUnmoved, CanEnd};

use crate::floors::write_begin;
use book_parts::BookParts;
use driver_calls::{FilterCalls, MiniportCalls, ProtocolCalls};
use driver_tray::Tray;
use flat_journal::{FlatReply, Room};
use journal_types::Refusal;
use ndis_base::{OutOfMemory, Phase};

/// How many bindings the stack has; None where they are 2 to the power of 32 or more, which no number of a binding
/// tells apart.
pub fn binding_count(tray: &Tray) -> Option<u32>
    ensures all { IfSome result (λ count. count ≡ length tray.now.net.modules.bindings) }
    ensures many { IfNone result (2 ^ 32 ≤ length tray.now.net.modules.bindings) }
{
    let count = tray.modules().bindings().len();
    if count > u32::MAX as usize {
        return None;
    }
    Some(count as u32)
}

/// A Running stack begins to pause: its bindings pause first (WDK, "Pausing a Driver Stack"). It also answers want of
/// memory where there are 2 to the power of 32 bindings or more.
pub fn begin_pause<M: MiniportCalls, P: ProtocolCalls, F: FilterCalls>(
    book: &mut BookParts<M, P, F>,
) -> Result<FlatReply, OutOfMemory>
    requires book { IsBook (view_of M.state P.state F.state book.old) }
    requires idle { IsIdle (view_of M.state P.state F.state book.old) }
    ensures did { IfOk result (λ r. DidEvent (view_of M.state P.state F.state book.old) (view_of M.state P.state F.state book.new) event.BeginPause (reply_of (view_of M.state P.state F.state book.new).tray.payloads r)) }
    ensures within { IfOk result (λ r. ReplyWithin (view_of M.state P.state F.state book.new).tray.payloads r) }
    ensures turn { OnOk result (CanEnd (view_of M.state P.state F.state book.new)) }
    ensures memory { OnErr result (IsUnmoved (view_of M.state P.state F.state book.old) (view_of M.state P.state F.state book.new)) }
{
    let Some(bindings) = binding_count(&book.tray) else {
        return Err(OutOfMemory);
    };
    book.tray.make_room(
        Room {
            turns: 1,
            rows: bindings as usize + 1,
            ..Room::none()
        },
        0,
    )?;
    match book.tray.phase() {
        Phase::Running => {
            write_begin(&mut book.tray, bindings);
            Ok(FlatReply::Ok)
        }
        phase => Ok(FlatReply::Refused(Refusal::WrongPhase { phase })),
    }
}
