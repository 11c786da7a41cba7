//! The miniport lends frames.
ghost use Rattle.std.specs.Prelude.{◌≡◌, ◌≤◌, true, OnOk, OnErr, IfOk, IfSome, IsErr, ◌↔◌, length, map};
ghost use Rattle.std.specs.List.{All};
ghost use Rattle.buffer_pools.specs.Views.{IsOf, live_count};
ghost use Rattle.frame_arena.specs.Spans.{frames_at, SpanWithin};
ghost use Rattle.flat_journal.specs.Shown.{reply_of};
ghost use Rattle.flat_journal.specs.Within.{ReplyWithin};
ghost use Rattle.journal_types.specs.declared.Event.TheVariants as event;
ghost use Rattle.ndis_base.specs.declared.ModuleId.TheVariants.{Miniport};
ghost use Rattle.stack_rules.specs.Conditions.{may_ask};
ghost use Rattle.book_parts.specs.Parts.{view_of};
ghost use Rattle.book_parts.specs.Events.{IsBook, IsIdle, DidEvent, IsUnmoved, CanEnd};
ghost use Rattle.binding_work.specs.Sends.{MayStart};
ghost use Rattle.lend_work.specs.Lends.{LendsFor, TakesHome, Carries, MayCarry, Lends, MayLend};

use crate::bindings::arrive;
use crate::climbs::climb;
use crate::rooming::make_room;
use book_parts::BookParts;
use buffer_pools::{BufferList, ListPool, NoList};
use driver_calls::{FilterCalls, MiniportCalls, ProtocolCalls};
use driver_tray::Tray;
use flat_journal::FlatReply;
use frame_arena::FrameSpan;
use journal_types::Refusal;
use ndis_base::{Frame, ListStatus, ModuleId, ModuleState, OutOfMemory};

/// Makes a list of the miniport's pool, whose frames the journal has.
fn lend_out(
    tray: &mut Tray,
    pool: &mut ListPool,
    frames: &[Frame],
    span: FrameSpan,
) -> Result<BufferList, NoList>
    requires { MayStart tray.old pool.old frames.now span }
    ensures lends { IfOk result (λ l. LendsFor frames.now tray.old pool.old l tray.new pool.new) }
    ensures no_list { IsErr result ↔ (live_count pool.old ≡ pool.old.size) }
    ensures tray { OnErr result (tray.new ≡ record tray.old { caller = Miniport }) }
    ensures pool { OnErr result (pool.new ≡ pool.old) }
{
    tray.set_caller(ModuleId::Miniport);
    tray.exchange_pool(pool);
    let lent = tray.lend(frames, span);
    tray.exchange_pool(pool);
    lent
}

/// Takes a list of the miniport's pool home.
fn take_home(tray: &mut Tray, pool: &mut ListPool, list: BufferList, status: ListStatus)
    requires own { IsOf pool.old list }
    requires room { 1 ≤ tray.old.room.rows }
    ensures { TakesHome list status tray.old pool.old tray.new pool.new }
{
    tray.set_caller(ModuleId::Miniport);
    tray.exchange_pool(pool);
    tray.spend(list, status);
    tray.exchange_pool(pool);
}

/// Lends a list to the filters, and to so many bindings. It answers with which status the list goes home.
fn carry<M: MiniportCalls, P: ProtocolCalls, F: FilterCalls>(
    book: &mut BookParts<M, P, F>,
    list: &BufferList,
    many: u32,
) -> ListStatus
    requires may { MayCarry many list.now (view_of M.state P.state F.state book.old) }
    requires protocols { All (λ r. 1 ≤ r) (map P.room book.old.protocols.items) }
    requires filters { All (λ r. 1 ≤ r) (map F.room book.old.filters.items) }
    ensures { Carries many list.now (view_of M.state P.state F.state book.old) result (view_of M.state P.state F.state book.new) }
{
    let filters = book.tray.order().len();
    let went = climb(
        &mut book.filters,
        &mut book.tray,
        &mut book.filter_pools,
        book.seats.as_slice(),
        list,
        filters,
    );
    match went {
        Some(status) => status,
        None => arrive(
            &mut book.protocols,
            &mut book.tray,
            &mut book.protocol_pools,
            list,
            many,
        ),
    }
}

/// Lends frames, while the miniport runs, with the room that this wants.
fn lend_running<M: MiniportCalls, P: ProtocolCalls, F: FilterCalls>(
    book: &mut BookParts<M, P, F>,
    frames: &[Frame],
    span: FrameSpan,
    many: u32,
) -> FlatReply
    requires may { MayLend many frames.now span (view_of M.state P.state F.state book.old) }
    requires protocols { All (λ r. 1 ≤ r) (map P.room book.old.protocols.items) }
    requires filters { All (λ r. 1 ≤ r) (map F.room book.old.filters.items) }
    ensures { Lends many frames.now (view_of M.state P.state F.state book.old) result (view_of M.state P.state F.state book.new) }
{
    match lend_out(&mut book.tray, &mut book.miniport_pool, frames, span) {
        Ok(list) => {
            let number = list.number();
            let status = carry(book, &list, many);
            take_home(&mut book.tray, &mut book.miniport_pool, list, status);
            FlatReply::Lent { list: number }
        }
        Err(NoList) => FlatReply::Refused(Refusal::NoList),
    }
}

/// How many these are; None where they are 2 to the power of 32 or more, which no number of a binding
/// tells apart.
fn count_of(bindings: usize) -> Option<u32>
    ensures all { IfSome result (λ many. many ≡ bindings) }
{
    if bindings > u32::MAX as usize {
        return None;
    }
    Some(bindings as u32)
}

/// The miniport indicates a list that stays its own: its filters and protocols have the list only while they are called (WDK,
/// "Receiving Data", NDIS_RECEIVE_FLAGS_RESOURCES). The journal has its frames at `span`. It also answers want of memory
/// where there are 2 to the power of 32 bindings or more, or a count comes near 2 to the power of 60, which no run
/// can reach.
pub fn lend<M: MiniportCalls, P: ProtocolCalls, F: FilterCalls>(
    book: &mut BookParts<M, P, F>,
    frames: &[Frame],
    span: FrameSpan,
) -> Result<FlatReply, OutOfMemory>
    requires book { IsBook (view_of M.state P.state F.state book.old) }
    requires idle { IsIdle (view_of M.state P.state F.state book.old) }
    requires may { may_ask (view_of M.state P.state F.state book.old).tray.head (event.Lend frames.now) ≡ true }
    requires within { SpanWithin (view_of M.state P.state F.state book.old).tray.payloads.frames span }
    requires shown { frames_at (view_of M.state P.state F.state book.old).tray.payloads.frames span ≡ frames.now }
    ensures did { IfOk result (λ r. DidEvent (view_of M.state P.state F.state book.old) (view_of M.state P.state F.state book.new) (event.Lend frames.now) (reply_of (view_of M.state P.state F.state book.new).tray.payloads r)) }
    ensures within { IfOk result (λ r. ReplyWithin (view_of M.state P.state F.state book.new).tray.payloads r) }
    ensures turn { OnOk result (CanEnd (view_of M.state P.state F.state book.new)) }
    ensures memory { OnErr result (IsUnmoved (view_of M.state P.state F.state book.old) (view_of M.state P.state F.state book.new)) }
{
    let Some(many) = count_of(book.protocols.len()) else {
        return Err(OutOfMemory);
    };
    make_room(book, many)?;
    match book.tray.state_of(ModuleId::Miniport) {
        ModuleState::Running => Ok(lend_running(book, frames, span, many)),
        _ => Ok(FlatReply::Refused(Refusal::NotRunning)),
    }
}
