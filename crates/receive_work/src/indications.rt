//! The miniport indicates frames.
ghost use Rattle.std.specs.Prelude.{◌≡◌, true, None, OnOk, OnErr, IfOk, IsErr, ◌↔◌};
ghost use Rattle.ndis_base.specs.declared.ModuleId.TheVariants.{Miniport};
ghost use Rattle.ndis_base.specs.declared.Direction.TheVariants.{Up};
ghost use Rattle.buffer_pools.specs.Views.{live_count};
ghost use Rattle.frame_arena.specs.Spans.{frames_at, SpanWithin};
ghost use Rattle.flat_journal.specs.Shown.{reply_of};
ghost use Rattle.flat_journal.specs.Within.{ReplyWithin};
ghost use Rattle.journal_types.specs.declared.Event.TheVariants as event;
ghost use Rattle.stack_rules.specs.Conditions.{may_ask};
ghost use Rattle.stack_rules.specs.Outcome.{list_no};
ghost use Rattle.book_parts.specs.Parts.{view_of};
ghost use Rattle.book_parts.specs.Events.{IsBook, IsIdle, DidEvent, IsUnmoved, CanEnd};
ghost use Rattle.binding_work.specs.Sends.{MayStart, StartsFor};
ghost use Rattle.receive_work.specs.Indications.{Indicates};

use book_parts::BookParts;
use buffer_pools::{ListPool, NoList};
use driver_calls::{FilterCalls, MiniportCalls, ProtocolCalls};
use driver_tray::Tray;
use flat_journal::{FlatReply, Room};
use frame_arena::FrameSpan;
use journal_types::Refusal;
use ndis_base::{Direction, Frame, ListNo, ModuleId, ModuleState, OutOfMemory};

/// Begins a list of the miniport's pool, whose frames the journal has.
fn start_up(
    tray: &mut Tray,
    pool: &mut ListPool,
    frames: &[Frame],
    span: FrameSpan,
) -> Result<ListNo, NoList>
    requires { MayStart tray.old pool.old frames.now span }
    ensures starts { OnOk result (StartsFor Miniport Up None frames.now tray.old pool.old tray.new pool.new) }
    ensures number { IfOk result (λ n. n ≡ list_no tray.old.net.next.list) }
    ensures no_list { IsErr result ↔ (live_count pool.old ≡ pool.old.size) }
    ensures tray { OnErr result (tray.new ≡ record tray.old { caller = Miniport }) }
    ensures pool { OnErr result (pool.new ≡ pool.old) }
{
    tray.set_caller(ModuleId::Miniport);
    tray.exchange_pool(pool);
    let started = tray.start(Direction::Up, None, frames, span);
    tray.exchange_pool(pool);
    started
}

/// Indicates a list, while the miniport runs.
fn indicate_running<M: MiniportCalls, P: ProtocolCalls, F: FilterCalls>(
    book: &mut BookParts<M, P, F>,
    frames: &[Frame],
    span: FrameSpan,
) -> FlatReply
    requires { MayStart (view_of M.state P.state F.state book.old).tray (view_of M.state P.state F.state book.old).held.miniport_pool frames.now span }
    ensures { Indicates frames.now (view_of M.state P.state F.state book.old) (view_of M.state P.state F.state book.new) result }
{
    let started = start_up(&mut book.tray, &mut book.miniport_pool, frames, span);
    match started {
        Ok(list) => FlatReply::Indicated { list },
        Err(NoList) => FlatReply::Refused(Refusal::NoList),
    }
}

/// The miniport indicates a list of its own, which is its filters' and protocols' until they return it (WDK,
/// "Indicating Received Data from a Miniport Driver": NdisMIndicateReceiveNetBufferLists). The journal has
/// its frames at `span`.
pub fn indicate<M: MiniportCalls, P: ProtocolCalls, F: FilterCalls>(
    book: &mut BookParts<M, P, F>,
    frames: &[Frame],
    span: FrameSpan,
) -> Result<FlatReply, OutOfMemory>
    requires book { IsBook (view_of M.state P.state F.state book.old) }
    requires idle { IsIdle (view_of M.state P.state F.state book.old) }
    requires may { may_ask (view_of M.state P.state F.state book.old).tray.head (event.Indicate frames.now) ≡ true }
    requires within { SpanWithin (view_of M.state P.state F.state book.old).tray.payloads.frames span }
    requires shown { frames_at (view_of M.state P.state F.state book.old).tray.payloads.frames span ≡ frames.now }
    ensures did { IfOk result (λ r. DidEvent (view_of M.state P.state F.state book.old) (view_of M.state P.state F.state book.new) (event.Indicate frames.now) (reply_of (view_of M.state P.state F.state book.new).tray.payloads r)) }
    ensures within { IfOk result (λ r. ReplyWithin (view_of M.state P.state F.state book.new).tray.payloads r) }
    ensures turn { OnOk result (CanEnd (view_of M.state P.state F.state book.new)) }
    ensures memory { OnErr result (IsUnmoved (view_of M.state P.state F.state book.old) (view_of M.state P.state F.state book.new)) }
{
    book.tray.make_room(
        Room {
            turns: 1,
            rows: 2,
            ..Room::none()
        },
        1,
    )?;
    match book.tray.state_of(ModuleId::Miniport) {
        ModuleState::Running => Ok(indicate_running(book, frames, span)),
        _ => Ok(FlatReply::Refused(Refusal::NotRunning)),
    }
}
