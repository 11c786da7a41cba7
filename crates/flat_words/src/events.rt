//! The words of events and replies.
ghost use Rattle.std.specs.Prelude.{◌≡◌, OnOk};
ghost use Rattle.frame_arena.specs.Spans.{frames_at, SpanWithin};
ghost use Rattle.flat_journal.specs.Shown.{event_of, reply_of};
ghost use Rattle.flat_journal.specs.Within.{EventWithin};
ghost use Rattle.journal_types.specs.declared.Event.TheVariants as event;
ghost use Rattle.journal_words.specs.Words.{word, spaced, frames_text};
ghost use Rattle.journal_events.specs.Events.{event_words, reply_words};

use crate::frames::push_frames;
use flat_journal::{FlatEvent, FlatJournal, FlatReply};
use frame_arena::FrameSpan;
use journal_events::events::{
    push_ask, push_counted, push_cross_done, push_cross_take_up, push_give_back, push_insert,
    push_refused, push_replace, push_status, push_with_filter,
};
use journal_words::page::Page;
use ndis_base::{CrossNo, OutOfMemory};

fn push_with_frames(
    page: &mut Page,
    journal: &FlatJournal,
    text: &str,
    frames: FrameSpan,
) -> Result<(), OutOfMemory>
    requires { SpanWithin journal.now.payloads.frames frames }
    ensures { OnOk result (page.new ≡ word (word page.old text.now) (frames_text (frames_at journal.now.payloads.frames frames))) }
{
    page.word(text)?;
    push_frames(page, journal, frames)
}

fn push_send(
    page: &mut Page,
    journal: &FlatJournal,
    binding: u32,
    cancel: Option<u32>,
    frames: FrameSpan,
) -> Result<(), OutOfMemory>
    requires { SpanWithin journal.now.payloads.frames frames }
    ensures { OnOk result (page.new ≡ spaced page.old (event_words (event.Send binding cancel (frames_at journal.now.payloads.frames frames)))) }
{
    page.text(" send")?;
    page.binding(binding)?;
    page.optional_number(cancel)?;
    push_frames(page, journal, frames)
}

fn push_cross_put(
    page: &mut Page,
    journal: &FlatJournal,
    stack: u8,
    message: CrossNo,
    vlan: u16,
    frames: FrameSpan,
) -> Result<(), OutOfMemory>
    requires { SpanWithin journal.now.payloads.frames frames }
    ensures { OnOk result (page.new ≡ spaced page.old (event_words (event.CrossPut stack message vlan (frames_at journal.now.payloads.frames frames)))) }
{
    page.word("cross_put")?;
    page.number(u64::from(stack))?;
    page.number(message.0)?;
    page.number(u64::from(vlan))?;
    push_frames(page, journal, frames)
}

fn push_cross_put_up(
    page: &mut Page,
    journal: &FlatJournal,
    stack: u8,
    message: CrossNo,
    frames: FrameSpan,
) -> Result<(), OutOfMemory>
    requires { SpanWithin journal.now.payloads.frames frames }
    ensures { OnOk result (page.new ≡ spaced page.old (event_words (event.CrossPutUp stack message (frames_at journal.now.payloads.frames frames)))) }
{
    page.word("cross_put_up")?;
    page.number(u64::from(stack))?;
    page.number(message.0)?;
    push_frames(page, journal, frames)
}

/// Adds the words of an event.
pub fn push_event(
    page: &mut Page,
    journal: &FlatJournal,
    event: FlatEvent,
) -> Result<(), OutOfMemory>
    requires { EventWithin journal.now.payloads event }
    ensures { OnOk result (page.new ≡ spaced page.old (event_words (event_of journal.now.payloads event))) }
{
    match event {
        FlatEvent::Initialize => page.word("initialize"),
        FlatEvent::Insert {
            kind,
            position,
            setup,
        } => push_insert(page, kind, position, journal.setup(setup)),
        FlatEvent::Remove { filter } => push_with_filter(page, "remove", filter),
        FlatEvent::Replace {
            filter,
            kind,
            setup,
        } => push_replace(page, filter, kind, journal.setup(setup)),
        FlatEvent::Send {
            binding,
            cancel,
            frames,
        } => push_send(page, journal, binding, cancel, frames),
        FlatEvent::Indicate { frames } => push_with_frames(page, journal, "indicate", frames),
        FlatEvent::Lend { frames } => push_with_frames(page, journal, "lend", frames),
        FlatEvent::GiveBack { binding, list } => push_give_back(page, binding, list),
        FlatEvent::Cancel { id } => push_counted(page, " cancel ", u64::from(id)),
        FlatEvent::Ask {
            binding,
            kind,
            code,
            value,
        } => push_ask(page, binding, kind, code, journal.value(value)),
        FlatEvent::Status { name } => push_status(page, name),
        FlatEvent::Transmit => page.text(" transmit"),
        FlatEvent::Pump => page.text(" pump"),
        FlatEvent::Drain => page.text(" drain"),
        FlatEvent::BeginPause => page.word("begin_pause"),
        FlatEvent::PauseNext => page.word("pause_next"),
        FlatEvent::RestartNext => page.word("restart_next"),
        FlatEvent::Halt => page.word("halt"),
        FlatEvent::CrossTake => page.word("cross_take"),
        FlatEvent::CrossPut {
            stack,
            message,
            vlan,
            frames,
        } => push_cross_put(page, journal, stack, message, vlan, frames),
        FlatEvent::CrossDone { message, status } => push_cross_done(page, message, status),
        FlatEvent::CrossTakeUp { binding, vlan } => push_cross_take_up(page, binding, vlan),
        FlatEvent::CrossPutUp {
            stack,
            message,
            frames,
        } => push_cross_put_up(page, journal, stack, message, frames),
    }
}

/// Adds the words of a reply.
pub fn push_reply(
    page: &mut Page,
    _journal: &FlatJournal,
    reply: FlatReply,
) -> Result<(), OutOfMemory>
    ensures { OnOk result (page.new ≡ spaced page.old (reply_words (reply_of _journal.now.payloads reply))) }
{
    match reply {
        FlatReply::Ok => page.text(" ok"),
        FlatReply::Inserted { filter } => push_with_filter(page, "inserted", filter),
        FlatReply::Removed => page.word("removed"),
        FlatReply::Replaced { filter } => push_with_filter(page, "replaced", filter),
        FlatReply::Sent { list } => push_counted(page, " sent ", list.0),
        FlatReply::Indicated { list } => push_counted(page, " indicated ", list.0),
        FlatReply::Lent { list } => push_counted(page, " lent ", list.0),
        FlatReply::Cancelled { n } => push_counted(page, " cancelled ", n),
        FlatReply::Asked { request } => push_counted(page, " asked ", request.0),
        FlatReply::Wired { list } => push_counted(page, " wired ", list.0),
        FlatReply::Moved => page.text(" moved"),
        FlatReply::Idle => page.text(" idle"),
        FlatReply::Next => page.word("next"),
        FlatReply::Paused => page.word("paused"),
        FlatReply::Running => page.word("running"),
        FlatReply::Waiting { n } => push_counted(page, " waiting ", n),
        FlatReply::Halted => page.word("halted"),
        FlatReply::Taken { message, .. } => push_counted(page, " taken ", message.0),
        FlatReply::Nothing => page.word("nothing"),
        FlatReply::Crossed { list } => push_counted(page, " crossed ", list.0),
        FlatReply::Refused(refusal) => push_refused(page, refusal),
    }
}
