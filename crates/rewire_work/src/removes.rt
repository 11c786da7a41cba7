//! A filter is removed.
ghost use Rattle.std.specs.Prelude.{◌≡◌, ◌==◌, ◌<◌, ◌^◌, not, true, IfOk, OnOk, OnErr};
ghost use Rattle.std.specs.List.{filter};
ghost use Rattle.std.specs.Vec.{vec_len, vec_capacity};
ghost use Rattle.journal_types.specs.declared.Event.TheVariants as event;
ghost use Rattle.flat_journal.specs.Shown.{reply_of};
ghost use Rattle.flat_journal.specs.Within.{ReplyWithin};
ghost use Rattle.stack_rules.specs.Rewires.{is_in};
ghost use Rattle.book_parts.specs.Parts.{view_of};
ghost use Rattle.book_parts.specs.Events.{IsBook, IsIdle, DidEvent, IsUnmoved, CanEnd};
ghost use Rattle.rewire_work.specs.Rested.{IsAtRest, IsReady};
ghost use Rattle.rewire_work.specs.Seated.{Removes};
ghost use Rattle.book_lemmas.specs.Shelves.{FollowsShelf};

use crate::quiet::{is_low, live_count, rewire_refusal};
use crate::room::{make_room, write_order};
use crate::seats::{detach_at, place_of, rise};
use book_parts::BookParts;
use driver_calls::{FilterCalls, MiniportCalls, ProtocolCalls};
use flat_journal::FlatReply;
use journal_types::PhaseOf;
use ndis_base::{ModuleId, ModuleState, OutOfMemory};
use std::alloc::Global;

/// The order without a filter.
fn shorter_order(alloc: Global, order: &[u64], f: u64) -> Result<Vec<u64>, OutOfMemory>
    ensures { IfOk result (λ v. v.items ≡ filter (λ g. not (g == f)) order.now) }
{
    let mut shorter = Vec::from_slice(alloc, order)?;
    shorter.retain(|g| *g != f);
    Ok(shorter)
}

/// Detaches a filter of the order, and writes the order that is left.
fn remove_at<M: MiniportCalls, P: ProtocolCalls, F: FilterCalls>(
    book: &mut BookParts<M, P, F>,
    f: u64,
    order: &[u64],
)
    requires book { IsBook (view_of M.state P.state F.state book.old) }
    requires rest { IsAtRest (view_of M.state P.state F.state book.old).tray.net }
    requires ready { IsReady (view_of M.state P.state F.state book.old).tray }
    requires place { vec_len book.old.shelf < vec_capacity book.old.shelf }
    requires filter { (view_of M.state P.state F.state book.old).tray.net.next.filter < 2 ^ 60 }
    requires config { (view_of M.state P.state F.state book.old).tray.net.modules.config < 2 ^ 60 }
    requires there { is_in f (view_of M.state P.state F.state book.old).tray.net.modules.order ≡ true }
    requires order { order.now ≡ filter (λ g. not (g == f)) (view_of M.state P.state F.state book.old).tray.net.modules.order }
    ensures { Removes f (view_of M.state P.state F.state book.old) (view_of M.state P.state F.state book.new) }
{
    let Some(place) = place_of(book.seats.as_slice(), f) else {
        unreachable!()
    };
    detach_at(&mut book.filters, place);
    rise(&mut book.seats, &mut book.shelf, f, place);
    book.tray.write_phase(PhaseOf::Module(ModuleId::Filter(f), ModuleState::Detached));
    write_order(&mut book.tray, order);
}

/// Removes a filter of the configuration (WDK, "Removing a Filter Module"). Its driver goes to the shelf's
/// end. A stack that isn't Paused, or that has something on its way, refuses.
pub fn remove<M: MiniportCalls, P: ProtocolCalls, F: FilterCalls>(
    book: &mut BookParts<M, P, F>,
    alloc: Global,
    filter: u64,
) -> Result<FlatReply, OutOfMemory>
    requires book { IsBook (view_of M.state P.state F.state book.old) }
    requires idle { IsIdle (view_of M.state P.state F.state book.old) }
    ensures did { IfOk result (λ r. DidEvent (view_of M.state P.state F.state book.old) (view_of M.state P.state F.state book.new) (event.Remove filter) (reply_of (view_of M.state P.state F.state book.new).tray.payloads r)) }
    ensures shelf { IfOk result (λ r. FollowsShelf (view_of M.state P.state F.state book.old) (view_of M.state P.state F.state book.new) (event.Remove filter) (reply_of (view_of M.state P.state F.state book.new).tray.payloads r)) }
    ensures within { IfOk result (λ r. ReplyWithin (view_of M.state P.state F.state book.new).tray.payloads r) }
    ensures turn { OnOk result (CanEnd (view_of M.state P.state F.state book.new)) }
    ensures memory { OnErr result (IsUnmoved (view_of M.state P.state F.state book.old) (view_of M.state P.state F.state book.new)) }
{
    let Some(live) = live_count(&book.tray) else {
        return Err(OutOfMemory);
    };
    make_room(&mut book.tray, &mut book.shelf)?;
    if let Some(cause) = rewire_refusal(&book.tray, live, filter) {
        return Ok(FlatReply::Refused(cause));
    }
    if !is_low(&book.tray) {
        return Err(OutOfMemory);
    }
    let order = shorter_order(alloc, book.tray.order(), filter)?;
    remove_at(book, filter, order.as_slice());
    Ok(FlatReply::Removed)
}
