//! A binding asks.
ghost use Rattle.std.specs.Prelude.{◌≡◌, ◌≤◌, ◌<◌, ◌^◌, OnOk, OnErr, IfOk};
ghost use Rattle.flat_journal.specs.declared.types.FlatReply.TheVariants as flat_reply;
ghost use Rattle.flat_journal.specs.Payloads.{value_at};
ghost use Rattle.flat_journal.specs.Shown.{reply_of};
ghost use Rattle.flat_journal.specs.Within.{ReplyWithin, ValueWithin};
ghost use Rattle.journal_types.specs.declared.Event.TheVariants as event;
ghost use Rattle.stack_rules.specs.Outcome.{oid_no};
ghost use Rattle.driver_tray.specs.Tray.{asked};
ghost use Rattle.book_parts.specs.Parts.{view_of};
ghost use Rattle.book_parts.specs.Events.{IsBook, IsIdle, DidEvent, IsUnmoved, CanEnd};

use book_parts::BookParts;
use driver_calls::{FilterCalls, MiniportCalls, ProtocolCalls};
use driver_tray::Tray;
use flat_journal::{FlatReply, Room, ValueNo};
use journal_types::Refusal;
use ndis_base::{ModuleId, ModuleState, OidKind, OidValue, OutOfMemory};

/// Issues a request of the next number, whose value the journal has.
fn issue(
    tray: &mut Tray,
    binding: u32,
    kind: OidKind,
    code: u32,
    value: &OidValue,
    held: ValueNo,
) -> FlatReply
    requires within { ValueWithin tray.old.payloads held }
    requires shown { value_at tray.old.payloads.frames held ≡ value.now }
    requires low { tray.old.net.next.request < 2 ^ 60 }
    requires room { 1 ≤ tray.old.room.rows }
    requires slack { 1 ≤ tray.old.slack }
    ensures tray { tray.new ≡ asked tray.old binding kind code value.now }
    ensures number { result ≡ flat_reply.Asked (oid_no tray.old.net.next.request) }
{
    let request = tray.next_request();
    tray.ask(binding, kind, code, value, held);
    FlatReply::Asked { request }
}

/// A binding issues a request, whose value the journal has (WDK, "NdisOidRequest"). It waits at the topmost
/// module that takes requests, or at the entry of a stack that is paused or halted, or whose topmost such
/// module is busy. A binding that isn't open asks nothing.
pub fn ask<M: MiniportCalls, P: ProtocolCalls, F: FilterCalls>(
    book: &mut BookParts<M, P, F>,
    binding: u32,
    kind: OidKind,
    code: u32,
    value: &OidValue,
    held: ValueNo,
) -> Result<FlatReply, OutOfMemory>
    requires book { IsBook (view_of M.state P.state F.state book.old) }
    requires idle { IsIdle (view_of M.state P.state F.state book.old) }
    requires within { ValueWithin (view_of M.state P.state F.state book.old).tray.payloads held }
    requires shown { value_at (view_of M.state P.state F.state book.old).tray.payloads.frames held ≡ value.now }
    ensures did { IfOk result (λ r. DidEvent (view_of M.state P.state F.state book.old) (view_of M.state P.state F.state book.new) (event.Ask binding kind code value.now) (reply_of (view_of M.state P.state F.state book.new).tray.payloads r)) }
    ensures within { IfOk result (λ r. ReplyWithin (view_of M.state P.state F.state book.new).tray.payloads r) }
    ensures turn { OnOk result (CanEnd (view_of M.state P.state F.state book.new)) }
    ensures memory { OnErr result (IsUnmoved (view_of M.state P.state F.state book.old) (view_of M.state P.state F.state book.new)) }
{
    book.tray.make_room(
        Room {
            turns: 1,
            rows: 1,
            ..Room::none()
        },
        1,
    )?;
    match book.tray.state_of(ModuleId::Binding(binding)) {
        ModuleState::Unbound => Ok(FlatReply::Refused(Refusal::Unbound)),
        _ => Ok(issue(&mut book.tray, binding, kind, code, value, held)),
    }
}
