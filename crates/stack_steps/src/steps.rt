//! A step, by its event.
ghost use Rattle.std.specs.Prelude.{◌≡◌, true, false, IfOk, OnOk, OnErr};
ghost use Rattle.frame_arena.specs.Spans.{frames_at, SpanWithin};
ghost use Rattle.stack_rules.specs.Tests.{is_virtual, phase_is_running};
ghost use Rattle.miniport_work.specs.Works.{wired_as};
ghost use Rattle.journal_types.specs.declared.Event.TheVariants as events;
ghost use Rattle.stack_rules.specs.Conditions.{may_ask};
ghost use Rattle.flat_journal.specs.Shown.{event_of, reply_of};
ghost use Rattle.flat_journal.specs.Within.{EventWithin, ReplyWithin, ValueWithin};
ghost use Rattle.book_parts.specs.Parts.{view_of};
ghost use Rattle.book_parts.specs.Events.{IsBook, IsIdle, DidEvent, IsUnmoved, CanEnd};
ghost use Rattle.flat_journal.specs.Payloads.{Payloads, value_at};
ghost use Rattle.stack_steps.specs.Steps.{IsHeld, IsWorked, MovesShelf, Steps};

use binding_work::send;
use book_parts::BookParts;
use cancel_work::cancel;
use drain_work::drain_still;
use driver_calls::{FilterCalls, MiniportCalls, ProtocolCalls};
use flat_journal::{FlatEvent, FlatReply, ValueNo};
use frame_arena::FrameSpan;
use halt_work::halt;
use journal_types::{Asked, Event};
use lend_work::lend;
use miniport_work::works::transmit;
use ndis_base::{ListNo, OidKind, OutOfMemory, Phase};
use pause_work::pause_next;
use phase_work::pauses::begin_pause;
use pump_work::{move_first, pump};
use receive_work::{give_back, indicate};
use request_work::ask;
use rewire_work::{insert, remove, replace};
use setup_work::{initialize, restart_next};
use status_work::indicate_status;
use std::alloc::Global;

/// The answer to a transmission.
fn wired_reply(wired: Option<ListNo>) -> FlatReply
    ensures shown { (p : Payloads) → reply_of p result ≡ wired_as wired }
    ensures within { (p : Payloads) → ReplyWithin p result }
{
    match wired {
        Some(list) => FlatReply::Wired { list },
        None => FlatReply::Idle,
    }
}

fn is_running(phase: Phase) -> bool
    ensures { result ≡ phase_is_running phase }
{
    matches!(phase, Phase::Running)
}

/// The miniport transmits the oldest list of its ring.
fn transmit_oldest<M: MiniportCalls, P: ProtocolCalls, F: FilterCalls>(
    book: &mut BookParts<M, P, F>,
) -> Result<FlatReply, OutOfMemory>
    requires book { IsBook (view_of M.state P.state F.state book.old) }
    requires idle { IsIdle (view_of M.state P.state F.state book.old) }
    ensures did { IfOk result (λ r. DidEvent (view_of M.state P.state F.state book.old) (view_of M.state P.state F.state book.new) events.Transmit (reply_of (view_of M.state P.state F.state book.new).tray.payloads r)) }
    ensures within { IfOk result (λ r. ReplyWithin (view_of M.state P.state F.state book.new).tray.payloads r) }
    ensures turn { OnOk result (CanEnd (view_of M.state P.state F.state book.new)) }
    ensures memory { OnErr result (IsUnmoved (view_of M.state P.state F.state book.old) (view_of M.state P.state F.state book.new)) }
{
    let running = is_running(book.tray.phase());
    let wired = transmit(book, running)?;
    Ok(wired_reply(wired))
}

/// A binding sends the frames of an event, which the journal has at `span`.
fn send_frames<M: MiniportCalls, P: ProtocolCalls, F: FilterCalls>(
    book: &mut BookParts<M, P, F>,
    event: &Event,
    binding: u32,
    cancel: Option<u32>,
    span: FrameSpan,
) -> Result<FlatReply, OutOfMemory>
    requires book { IsBook (view_of M.state P.state F.state book.old) }
    requires idle { IsIdle (view_of M.state P.state F.state book.old) }
    requires sends { event.now ≡ events.Send binding cancel (frames_at (view_of M.state P.state F.state book.old).tray.payloads.frames span) }
    requires may { may_ask (view_of M.state P.state F.state book.old).tray.head event.now ≡ true }
    requires within { SpanWithin (view_of M.state P.state F.state book.old).tray.payloads.frames span }
    ensures did { IfOk result (λ r. DidEvent (view_of M.state P.state F.state book.old) (view_of M.state P.state F.state book.new) event.now (reply_of (view_of M.state P.state F.state book.new).tray.payloads r)) }
    ensures within { IfOk result (λ r. ReplyWithin (view_of M.state P.state F.state book.new).tray.payloads r) }
    ensures turn { OnOk result (CanEnd (view_of M.state P.state F.state book.new)) }
    ensures memory { OnErr result (IsUnmoved (view_of M.state P.state F.state book.old) (view_of M.state P.state F.state book.new)) }
{
    let Event::Send { frames, .. } = event else {
        unreachable!()
    };
    let phase = book.tray.phase();
    send(book, phase, binding, cancel, frames.items(), span)
}

/// The miniport indicates the frames of an event, which the journal has at `span`.
fn indicate_frames<M: MiniportCalls, P: ProtocolCalls, F: FilterCalls>(
    book: &mut BookParts<M, P, F>,
    event: &Event,
    span: FrameSpan,
) -> Result<FlatReply, OutOfMemory>
    requires book { IsBook (view_of M.state P.state F.state book.old) }
    requires idle { IsIdle (view_of M.state P.state F.state book.old) }
    requires indicates { event.now ≡ events.Indicate (frames_at (view_of M.state P.state F.state book.old).tray.payloads.frames span) }
    requires may { may_ask (view_of M.state P.state F.state book.old).tray.head event.now ≡ true }
    requires within { SpanWithin (view_of M.state P.state F.state book.old).tray.payloads.frames span }
    ensures did { IfOk result (λ r. DidEvent (view_of M.state P.state F.state book.old) (view_of M.state P.state F.state book.new) event.now (reply_of (view_of M.state P.state F.state book.new).tray.payloads r)) }
    ensures within { IfOk result (λ r. ReplyWithin (view_of M.state P.state F.state book.new).tray.payloads r) }
    ensures turn { OnOk result (CanEnd (view_of M.state P.state F.state book.new)) }
    ensures memory { OnErr result (IsUnmoved (view_of M.state P.state F.state book.old) (view_of M.state P.state F.state book.new)) }
{
    let Event::Indicate { frames } = event else {
        unreachable!()
    };
    indicate(book, frames.items(), span)
}

/// The miniport lends the frames of an event, which the journal has at `span`.
fn lend_frames<M: MiniportCalls, P: ProtocolCalls, F: FilterCalls>(
    book: &mut BookParts<M, P, F>,
    event: &Event,
    span: FrameSpan,
) -> Result<FlatReply, OutOfMemory>
    requires book { IsBook (view_of M.state P.state F.state book.old) }
    requires idle { IsIdle (view_of M.state P.state F.state book.old) }
    requires lends { event.now ≡ events.Lend (frames_at (view_of M.state P.state F.state book.old).tray.payloads.frames span) }
    requires may { may_ask (view_of M.state P.state F.state book.old).tray.head event.now ≡ true }
    requires within { SpanWithin (view_of M.state P.state F.state book.old).tray.payloads.frames span }
    ensures did { IfOk result (λ r. DidEvent (view_of M.state P.state F.state book.old) (view_of M.state P.state F.state book.new) event.now (reply_of (view_of M.state P.state F.state book.new).tray.payloads r)) }
    ensures within { IfOk result (λ r. ReplyWithin (view_of M.state P.state F.state book.new).tray.payloads r) }
    ensures turn { OnOk result (CanEnd (view_of M.state P.state F.state book.new)) }
    ensures memory { OnErr result (IsUnmoved (view_of M.state P.state F.state book.old) (view_of M.state P.state F.state book.new)) }
{
    let Event::Lend { frames } = event else {
        unreachable!()
    };
    lend(book, frames.items(), span)
}

/// A drain: what comes first is worked as by a pump, and where nothing moves, the first module from the top that keeps
/// a ready list gives it away.
fn drain<M: MiniportCalls, P: ProtocolCalls, F: FilterCalls>(
    book: &mut BookParts<M, P, F>,
) -> Result<FlatReply, OutOfMemory>
    requires book { IsBook (view_of M.state P.state F.state book.old) }
    requires idle { IsIdle (view_of M.state P.state F.state book.old) }
    requires rings { is_virtual (view_of M.state P.state F.state book.old).tray.net.head.kind ≡ false }
    ensures did { IfOk result (λ r. DidEvent (view_of M.state P.state F.state book.old) (view_of M.state P.state F.state book.new) events.Drain (reply_of (view_of M.state P.state F.state book.new).tray.payloads r)) }
    ensures within { IfOk result (λ r. ReplyWithin (view_of M.state P.state F.state book.new).tray.payloads r) }
    ensures turn { OnOk result (CanEnd (view_of M.state P.state F.state book.new)) }
    ensures memory { OnErr result (IsUnmoved (view_of M.state P.state F.state book.old) (view_of M.state P.state F.state book.new)) }
{
    if move_first(book)? {
        Ok(FlatReply::Moved)
    } else {
        drain_still(book)
    }
}

/// A binding asks with the value of an event, which the journal has at `held`.
fn ask_request<M: MiniportCalls, P: ProtocolCalls, F: FilterCalls>(
    book: &mut BookParts<M, P, F>,
    event: &Event,
    binding: u32,
    kind: OidKind,
    code: u32,
    held: ValueNo,
) -> Result<FlatReply, OutOfMemory>
    requires book { IsBook (view_of M.state P.state F.state book.old) }
    requires idle { IsIdle (view_of M.state P.state F.state book.old) }
    requires asks { event.now ≡ events.Ask binding kind code (value_at (view_of M.state P.state F.state book.old).tray.payloads.frames held) }
    requires within { ValueWithin (view_of M.state P.state F.state book.old).tray.payloads held }
    ensures did { IfOk result (λ r. DidEvent (view_of M.state P.state F.state book.old) (view_of M.state P.state F.state book.new) event.now (reply_of (view_of M.state P.state F.state book.new).tray.payloads r)) }
    ensures within { IfOk result (λ r. ReplyWithin (view_of M.state P.state F.state book.new).tray.payloads r) }
    ensures turn { OnOk result (CanEnd (view_of M.state P.state F.state book.new)) }
    ensures memory { OnErr result (IsUnmoved (view_of M.state P.state F.state book.old) (view_of M.state P.state F.state book.new)) }
{
    let Event::Ask { value, .. } = event else {
        unreachable!()
    };
    ask(book, binding, kind, code, value, held)
}

/// Works an event that the journal has.
fn work<M: MiniportCalls, P: ProtocolCalls, F: FilterCalls>(
    book: &mut BookParts<M, P, F>,
    alloc: Global,
    event: &Event,
    held: FlatEvent,
) -> Result<FlatReply, OutOfMemory>
    requires book { IsBook (view_of M.state P.state F.state book.old) }
    requires idle { IsIdle (view_of M.state P.state F.state book.old) }
    requires rings { is_virtual (view_of M.state P.state F.state book.old).tray.net.head.kind ≡ false }
    requires held { IsHeld (view_of M.state P.state F.state book.old) event.now held }
    ensures did { IfOk result (λ r. DidEvent (view_of M.state P.state F.state book.old) (view_of M.state P.state F.state book.new) (event_of (view_of M.state P.state F.state book.old).tray.payloads held) (reply_of (view_of M.state P.state F.state book.new).tray.payloads r)) }
    ensures shelf { IfOk result (λ r. MovesShelf (view_of M.state P.state F.state book.old) (view_of M.state P.state F.state book.new) (event_of (view_of M.state P.state F.state book.old).tray.payloads held) (reply_of (view_of M.state P.state F.state book.new).tray.payloads r)) }
    ensures within { IfOk result (λ r. ReplyWithin (view_of M.state P.state F.state book.new).tray.payloads r) }
    ensures turn { OnOk result (CanEnd (view_of M.state P.state F.state book.new)) }
    ensures memory { OnErr result (IsUnmoved (view_of M.state P.state F.state book.old) (view_of M.state P.state F.state book.new)) }
{
    match held {
        FlatEvent::Initialize => initialize(book, alloc),
        FlatEvent::Insert {
            kind,
            position,
            setup,
        } => insert(book, alloc, kind, position, setup),
        FlatEvent::Remove { filter } => remove(book, alloc, filter),
        FlatEvent::Replace {
            filter,
            kind,
            setup,
        } => replace(book, alloc, filter, kind, setup),
        FlatEvent::Send {
            binding,
            cancel,
            frames,
        } => send_frames(book, event, binding, cancel, frames),
        FlatEvent::Indicate { frames } => indicate_frames(book, event, frames),
        FlatEvent::Lend { frames } => lend_frames(book, event, frames),
        FlatEvent::GiveBack { binding, list } => give_back(book, binding, list),
        FlatEvent::Cancel { id } => cancel(book, id),
        FlatEvent::Status { name } => indicate_status(book, name),
        FlatEvent::Ask {
            binding,
            kind,
            code,
            value,
        } => ask_request(book, event, binding, kind, code, value),
        FlatEvent::Transmit => transmit_oldest(book),
        FlatEvent::Pump => pump(book),
        FlatEvent::Drain => drain(book),
        FlatEvent::BeginPause => begin_pause(book),
        FlatEvent::PauseNext => pause_next(book),
        FlatEvent::RestartNext => restart_next(book),
        FlatEvent::Halt => halt(book),
        _ => unreachable!(),
    }
}

/// Asks an event of a stack between two turns: its rows become a turn. After want of memory all is as before
/// but for room.
pub fn step<M: MiniportCalls, P: ProtocolCalls, F: FilterCalls>(
    book: &mut BookParts<M, P, F>,
    alloc: Global,
    asked: &Asked,
) -> Result<FlatReply, OutOfMemory>
    requires book { IsBook (view_of M.state P.state F.state book.old) }
    requires idle { IsIdle (view_of M.state P.state F.state book.old) }
    requires rings { is_virtual (view_of M.state P.state F.state book.old).tray.head.kind ≡ false }
    requires worked { IsWorked asked.now.event }
    requires may { may_ask (view_of M.state P.state F.state book.old).tray.head asked.now.event ≡ true }
    ensures steps { IfOk result (λ r. Steps (view_of M.state P.state F.state book.old) (view_of M.state P.state F.state book.new) asked.now (reply_of (view_of M.state P.state F.state book.new).tray.payloads r)) }
    ensures memory { OnErr result (IsUnmoved (view_of M.state P.state F.state book.old) (view_of M.state P.state F.state book.new)) }
{
    let held = book.tray.hold_event(alloc, &asked.event)?;
    let reply = work(book, alloc, &asked.event, held)?;
    book.tray.end_turn(asked.who, held, reply);
    Ok(reply)
}
