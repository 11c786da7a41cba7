//! A binding sends.
ghost use Rattle.std.specs.Prelude.{◌≡◌, ℕ, ◌<◌, true, OnOk, OnErr, IfOk, IsErr, ◌↔◌, length, slice_set, slice_index_or};
ghost use Rattle.ndis_base.specs.declared.ModuleId.TheVariants.{Binding};
ghost use Rattle.ndis_base.specs.declared.Direction.TheVariants.{Down};
ghost use Rattle.buffer_pools.specs.Views.{live_count};
ghost use Rattle.frame_arena.specs.Spans.{frames_at, SpanWithin};
ghost use Rattle.flat_journal.specs.Shown.{reply_of};
ghost use Rattle.flat_journal.specs.Within.{ReplyWithin};
ghost use Rattle.journal_types.specs.declared.Event.TheVariants as event;
ghost use Rattle.stack_rules.specs.Conditions.{may_ask};
ghost use Rattle.stack_rules.specs.Outcome.{list_no};
ghost use Rattle.book_lemmas.specs.Views.{no_pool};
ghost use Rattle.book_parts.specs.Parts.{view_of};
ghost use Rattle.book_parts.specs.Events.{IsBook, IsIdle, DidEvent, IsUnmoved, CanEnd};
ghost use Rattle.binding_work.specs.Sends.{MayStart, StartsFor, Sends};

use book_parts::BookParts;
use buffer_pools::{ListPool, NoList};
use driver_calls::{FilterCalls, MiniportCalls, ProtocolCalls};
use driver_tray::Tray;
use flat_journal::{FlatReply, Room};
use frame_arena::FrameSpan;
use journal_types::Refusal;
use ndis_base::{Direction, Frame, ListNo, ModuleId, OutOfMemory, Phase};

/// Begins a list of a binding's pool, whose frames the journal has.
fn start_for(
    tray: &mut Tray,
    pool: &mut ListPool,
    binding: u32,
    cancel: Option<u32>,
    frames: &[Frame],
    span: FrameSpan,
) -> Result<ListNo, NoList>
    requires { MayStart tray.old pool.old frames.now span }
    ensures starts { OnOk result (StartsFor (Binding binding) Down cancel frames.now tray.old pool.old tray.new pool.new) }
    ensures number { IfOk result (λ n. n ≡ list_no tray.old.net.next.list) }
    ensures no_list { IsErr result ↔ (live_count pool.old ≡ pool.old.size) }
    ensures tray { OnErr result (tray.new ≡ record tray.old { caller = Binding binding }) }
    ensures pool { OnErr result (pool.new ≡ pool.old) }
{
    tray.set_caller(ModuleId::Binding(binding));
    tray.exchange_pool(pool);
    let started = tray.start(Direction::Down, cancel, frames, span);
    tray.exchange_pool(pool);
    started
}

/// The same at the binding's place.
fn start_at(
    tray: &mut Tray,
    pools: &mut Vec<ListPool>,
    binding: u32,
    cancel: Option<u32>,
    frames: &[Frame],
    span: FrameSpan,
) -> Result<ListNo, NoList>
    requires there { binding < length pools.old.items }
    requires may { MayStart tray.old (slice_index_or pools.old.items binding no_pool) frames.now span }
    ensures starts { OnOk result (StartsFor (Binding binding) Down cancel frames.now tray.old (slice_index_or pools.old.items binding no_pool) tray.new (slice_index_or pools.new.items binding no_pool)) }
    ensures pools { pools.new.items ≡ slice_set pools.old.items binding (slice_index_or pools.new.items binding no_pool) }
    ensures number { IfOk result (λ n. n ≡ list_no tray.old.net.next.list) }
    ensures no_list { IsErr result ↔ (live_count (slice_index_or pools.old.items binding no_pool) ≡ (slice_index_or pools.old.items binding no_pool).size) }
    ensures tray { OnErr result (tray.new ≡ record tray.old { caller = Binding binding }) }
    ensures same { OnErr result (pools.new.items ≡ pools.old.items) }
{
    start_for(
        tray,
        &mut pools[binding as usize],
        binding,
        cancel,
        frames,
        span,
    )
}

/// Sends a list, while the stack runs.
fn send_running<M: MiniportCalls, P: ProtocolCalls, F: FilterCalls>(
    book: &mut BookParts<M, P, F>,
    binding: u32,
    cancel: Option<u32>,
    frames: &[Frame],
    span: FrameSpan,
) -> FlatReply
    requires there { binding < length book.old.protocol_pools.items }
    requires may { MayStart (view_of M.state P.state F.state book.old).tray (slice_index_or book.old.protocol_pools.items binding no_pool) frames.now span }
    ensures { Sends binding cancel frames.now (view_of M.state P.state F.state book.old) (view_of M.state P.state F.state book.new) result }
{
    let started = start_at(
        &mut book.tray,
        &mut book.protocol_pools,
        binding,
        cancel,
        frames,
        span,
    );
    match started {
        Ok(list) => FlatReply::Sent { list },
        Err(NoList) => FlatReply::Refused(Refusal::NoList),
    }
}

/// A binding sends a list (WDK, "Sending Data from a Protocol Driver"). The journal has its frames at
/// `span`.
pub fn send<M: MiniportCalls, P: ProtocolCalls, F: FilterCalls>(
    book: &mut BookParts<M, P, F>,
    phase: Phase,
    binding: u32,
    cancel: Option<u32>,
    frames: &[Frame],
    span: FrameSpan,
) -> Result<FlatReply, OutOfMemory>
    requires book { IsBook (view_of M.state P.state F.state book.old) }
    requires idle { IsIdle (view_of M.state P.state F.state book.old) }
    requires phase { phase ≡ (view_of M.state P.state F.state book.old).tray.net.phase }
    requires may { may_ask (view_of M.state P.state F.state book.old).tray.head (event.Send binding cancel frames.now) ≡ true }
    requires within { SpanWithin (view_of M.state P.state F.state book.old).tray.payloads.frames span }
    requires shown { frames_at (view_of M.state P.state F.state book.old).tray.payloads.frames span ≡ frames.now }
    ensures did { IfOk result (λ r. DidEvent (view_of M.state P.state F.state book.old) (view_of M.state P.state F.state book.new) (event.Send binding cancel frames.now) (reply_of (view_of M.state P.state F.state book.new).tray.payloads r)) }
    ensures within { IfOk result (λ r. ReplyWithin (view_of M.state P.state F.state book.new).tray.payloads r) }
    ensures turn { OnOk result (CanEnd (view_of M.state P.state F.state book.new)) }
    ensures memory { OnErr result (IsUnmoved (view_of M.state P.state F.state book.old) (view_of M.state P.state F.state book.new)) }
{
    book.tray.make_room(
        Room {
            turns: 1,
            rows: 2,
            ..Room::none()
        },
        1,
    )?;
    match phase {
        Phase::Running => Ok(send_running(book, binding, cancel, frames, span)),
        _ => Ok(FlatReply::Refused(Refusal::Paused { phase })),
    }
}
