//! A stack is halted.
ghost use Rattle.std.specs.Prelude.{◌≡◌, ◌+◌, ◌*◌, ◌≤◌, OnOk, OnErr, IfOk, length};
ghost use Rattle.std.specs.Vec.{vec_len, vec_capacity};
ghost use Rattle.journal_types.specs.declared.Event.TheVariants as event;
ghost use Rattle.flat_journal.specs.Shown.{reply_of};
ghost use Rattle.flat_journal.specs.Within.{ReplyWithin};
ghost use Rattle.book_parts.specs.Parts.{view_of};
ghost use Rattle.book_parts.specs.Events.{IsBook, IsIdle, DidEvent, IsUnmoved, CanEnd};
ghost use Rattle.book_lemmas.specs.Shelves.{FollowsShelf};
ghost use Rattle.halt_work.specs.Halted.{AreNumbers, MayShut, IsWide, Halts};

use crate::drivers::{close_from, detach_each, halt_miniport};
use crate::quiet::{halt_count, halt_refusal, next_fits};
use crate::rows::{make_room, write_halted};
use book_parts::BookParts;
use driver_calls::{FilterCalls, MiniportCalls, ProtocolCalls};
use flat_journal::FlatReply;
use ndis_base::OutOfMemory;
use phase_work::pauses::binding_count;

/// Shuts the drivers down from the top, and writes the rows.
fn halt_all<M: MiniportCalls, P: ProtocolCalls, F: FilterCalls>(
    book: &mut BookParts<M, P, F>,
    bindings: u32,
)
    requires may { MayShut (view_of M.state P.state F.state book.old).held (view_of M.state P.state F.state book.old).tray.net.modules.order }
    requires numbers { AreNumbers (view_of M.state P.state F.state book.old).tray.net.modules.order }
    requires few { length (view_of M.state P.state F.state book.old).tray.net.modules.order ≤ 16 }
    requires wide { IsWide bindings (view_of M.state P.state F.state book.old).tray }
    requires places { vec_len book.old.shelf + 16 ≤ vec_capacity book.old.shelf }
    ensures { Halts bindings (view_of M.state P.state F.state book.old) (view_of M.state P.state F.state book.new) }
{
    close_from(&mut book.protocols, 0);
    detach_each(
        &mut book.filters,
        &mut book.seats,
        &mut book.shelf,
        book.tray.order(),
    );
    halt_miniport(&mut book.miniport);
    write_halted(&mut book.tray, bindings);
}

/// A Paused stack is halted, where no status is on its way and no request is left: its protocols are closed, its
/// filters detached in the order of the configuration, whose drivers go to the shelf's end, and its miniport is
/// halted (WDK, "Unbinding from an Adapter", "Detaching a Filter Module", "Halting a Miniport Adapter"). It also
/// answers want of memory where there are 2 to the power of 32 bindings or more.
pub fn halt<M: MiniportCalls, P: ProtocolCalls, F: FilterCalls>(
    book: &mut BookParts<M, P, F>,
) -> Result<FlatReply, OutOfMemory>
    requires book { IsBook (view_of M.state P.state F.state book.old) }
    requires idle { IsIdle (view_of M.state P.state F.state book.old) }
    ensures did { IfOk result (λ r. DidEvent (view_of M.state P.state F.state book.old) (view_of M.state P.state F.state book.new) event.Halt (reply_of (view_of M.state P.state F.state book.new).tray.payloads r)) }
    ensures shelf { IfOk result (λ r. FollowsShelf (view_of M.state P.state F.state book.old) (view_of M.state P.state F.state book.new) event.Halt (reply_of (view_of M.state P.state F.state book.new).tray.payloads r)) }
    ensures within { IfOk result (λ r. ReplyWithin (view_of M.state P.state F.state book.new).tray.payloads r) }
    ensures turn { OnOk result (CanEnd (view_of M.state P.state F.state book.new)) }
    ensures memory { OnErr result (IsUnmoved (view_of M.state P.state F.state book.old) (view_of M.state P.state F.state book.new)) }
{
    next_fits(&book.tray);
    let Some(bindings) = binding_count(&book.tray) else {
        return Err(OutOfMemory);
    };
    let Some(left) = halt_count(&book.tray) else {
        return Err(OutOfMemory);
    };
    make_room(&mut book.tray, &mut book.shelf, bindings)?;
    if let Some(cause) = halt_refusal(&book.tray, left) {
        return Ok(FlatReply::Refused(cause));
    }
    halt_all(book, bindings);
    Ok(FlatReply::Halted)
}
