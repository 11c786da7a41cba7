//! The words of events and replies.
ghost use Rattle.std.specs.Prelude.{◌≡◌, ◌++◌, OnOk, codes, decimal};
ghost use Rattle.journal_words.specs.Words.{word, spaced, filter_text, frames_text};
ghost use Rattle.ndis_base.specs.Names.{phase_text};
ghost use Rattle.journal_types.specs.declared.Event.TheVariants as event;
ghost use Rattle.journal_events.specs.Events.{who_words, setup_words, event_words, refusal_words, reply_words};

use journal_types::{Event, Frames, Refusal, Reply, Setup};
use journal_words::page::Page;
use journal_words::programs::push_program;
use ndis_base::{
    CrossNo, FilterKind, ListNo, ListStatus, OidKind, OutOfMemory, Phase, StatusName, Who,
    name_of_filter_kind, name_of_list_status, name_of_oid_kind, name_of_phase, name_of_status_name,
};

/// A text and a number.
#[inline(always)]
pub fn push_counted(page: &mut Page, text: &str, number: u64) -> Result<(), OutOfMemory>
    ensures { OnOk result (page.new ≡ (page.old ++ text.now) ++ decimal number) }
{
    page.text(text)?;
    page.digits(number)
}

pub fn push_with_filter(page: &mut Page, text: &str, filter: u64) -> Result<(), OutOfMemory>
    ensures { OnOk result (page.new ≡ word (word page.old text.now) (filter_text filter)) }
{
    page.word(text)?;
    page.filter(filter)
}

fn push_with_frames(page: &mut Page, text: &str, frames: &Frames) -> Result<(), OutOfMemory>
    ensures { OnOk result (page.new ≡ word (word page.old text.now) (frames_text frames.now)) }
{
    page.word(text)?;
    page.frames(frames)
}

fn push_with_phase(page: &mut Page, text: &str, phase: Phase) -> Result<(), OutOfMemory>
    ensures { OnOk result (page.new ≡ word (word page.old text.now) (phase_text phase)) }
{
    page.word(text)?;
    page.word(name_of_phase(phase))
}

pub fn push_who(page: &mut Page, who: Who) -> Result<(), OutOfMemory>
    ensures { OnOk result (page.new ≡ spaced page.old (who_words who)) }
{
    match who {
        Who::Own => page.text(" own"),
        Who::Call(lane) => push_counted(page, " call ", u64::from(lane.0)),
        Who::Help(lane) => push_counted(page, " help ", u64::from(lane.0)),
    }
}

fn push_setup(page: &mut Page, setup: &Setup) -> Result<(), OutOfMemory>
    ensures { OnOk result (page.new ≡ spaced page.old (setup_words setup.now)) }
{
    page.handlers(setup.handlers)?;
    page.number(setup.pool as u64)?;
    push_program(page, &setup.send)?;
    push_program(page, &setup.receive)
}

pub fn push_insert(
    page: &mut Page,
    kind: FilterKind,
    position: u8,
    setup: &Setup,
) -> Result<(), OutOfMemory>
    ensures { OnOk result (page.new ≡ spaced page.old (event_words (event.Insert kind position setup.now))) }
{
    page.word("insert")?;
    page.word(name_of_filter_kind(kind))?;
    page.number(u64::from(position))?;
    push_setup(page, setup)
}

pub fn push_replace(
    page: &mut Page,
    filter: u64,
    kind: FilterKind,
    setup: &Setup,
) -> Result<(), OutOfMemory>
    ensures { OnOk result (page.new ≡ spaced page.old (event_words (event.Replace filter kind setup.now))) }
{
    push_with_filter(page, "replace", filter)?;
    page.word(name_of_filter_kind(kind))?;
    push_setup(page, setup)
}

fn push_send(
    page: &mut Page,
    binding: u32,
    cancel: Option<u32>,
    frames: &Frames,
) -> Result<(), OutOfMemory>
    ensures { OnOk result (page.new ≡ spaced page.old (event_words (event.Send binding cancel frames.now))) }
{
    page.text(" send")?;
    page.binding(binding)?;
    page.optional_number(cancel)?;
    page.frames(frames)
}

pub fn push_give_back(page: &mut Page, binding: u32, list: ListNo) -> Result<(), OutOfMemory>
    ensures { OnOk result (page.new ≡ spaced page.old (event_words (event.GiveBack binding list))) }
{
    page.text(" giveback")?;
    page.binding(binding)?;
    page.number(list.0)
}

pub fn push_ask(
    page: &mut Page,
    binding: u32,
    kind: OidKind,
    code: u32,
    value: &[u8],
) -> Result<(), OutOfMemory>
    ensures { OnOk result (page.new ≡ spaced page.old (event_words (event.Ask binding kind code value.now))) }
{
    page.word("ask")?;
    page.binding(binding)?;
    page.word(name_of_oid_kind(kind))?;
    page.code(code)?;
    page.value(value)
}

pub fn push_status(page: &mut Page, name: StatusName) -> Result<(), OutOfMemory>
    ensures { OnOk result (page.new ≡ spaced page.old (event_words (event.Status name))) }
{
    page.word("status")?;
    page.word(name_of_status_name(name))
}

fn push_cross_put(
    page: &mut Page,
    stack: u8,
    message: CrossNo,
    vlan: u16,
    frames: &Frames,
) -> Result<(), OutOfMemory>
    ensures { OnOk result (page.new ≡ spaced page.old (event_words (event.CrossPut stack message vlan frames.now))) }
{
    page.word("cross_put")?;
    page.number(u64::from(stack))?;
    page.number(message.0)?;
    page.number(u64::from(vlan))?;
    page.frames(frames)
}

pub fn push_cross_done(
    page: &mut Page,
    message: CrossNo,
    status: ListStatus,
) -> Result<(), OutOfMemory>
    ensures { OnOk result (page.new ≡ spaced page.old (event_words (event.CrossDone message status))) }
{
    page.word("cross_done")?;
    page.number(message.0)?;
    page.word(name_of_list_status(status))
}

pub fn push_cross_take_up(page: &mut Page, binding: u32, vlan: u16) -> Result<(), OutOfMemory>
    ensures { OnOk result (page.new ≡ spaced page.old (event_words (event.CrossTakeUp binding vlan))) }
{
    page.word("cross_take_up")?;
    page.binding(binding)?;
    page.number(u64::from(vlan))
}

fn push_cross_put_up(
    page: &mut Page,
    stack: u8,
    message: CrossNo,
    frames: &Frames,
) -> Result<(), OutOfMemory>
    ensures { OnOk result (page.new ≡ spaced page.old (event_words (event.CrossPutUp stack message frames.now))) }
{
    page.word("cross_put_up")?;
    page.number(u64::from(stack))?;
    page.number(message.0)?;
    page.frames(frames)
}

pub fn push_event(page: &mut Page, event: &Event) -> Result<(), OutOfMemory>
    ensures { OnOk result (page.new ≡ spaced page.old (event_words event.now)) }
{
    match event {
        Event::Initialize => page.word("initialize"),
        Event::Insert {
            kind,
            position,
            setup,
        } => push_insert(page, *kind, *position, setup),
        Event::Remove { filter } => push_with_filter(page, "remove", *filter),
        Event::Replace {
            filter,
            kind,
            setup,
        } => push_replace(page, *filter, *kind, setup),
        Event::Send {
            binding,
            cancel,
            frames,
        } => push_send(page, *binding, *cancel, frames),
        Event::Indicate { frames } => push_with_frames(page, "indicate", frames),
        Event::Lend { frames } => push_with_frames(page, "lend", frames),
        Event::GiveBack { binding, list } => push_give_back(page, *binding, *list),
        Event::Cancel { id } => push_counted(page, " cancel ", u64::from(*id)),
        Event::Ask {
            binding,
            kind,
            code,
            value,
        } => push_ask(page, *binding, *kind, *code, value.bytes()),
        Event::Status { name } => push_status(page, *name),
        Event::Transmit => page.text(" transmit"),
        Event::Pump => page.text(" pump"),
        Event::Drain => page.text(" drain"),
        Event::BeginPause => page.word("begin_pause"),
        Event::PauseNext => page.word("pause_next"),
        Event::RestartNext => page.word("restart_next"),
        Event::Halt => page.word("halt"),
        Event::CrossTake => page.word("cross_take"),
        Event::CrossPut {
            stack,
            message,
            vlan,
            frames,
        } => push_cross_put(page, *stack, *message, *vlan, frames),
        Event::CrossDone { message, status } => push_cross_done(page, *message, *status),
        Event::CrossTakeUp { binding, vlan } => push_cross_take_up(page, *binding, *vlan),
        Event::CrossPutUp {
            stack,
            message,
            frames,
        } => push_cross_put_up(page, *stack, *message, frames),
    }
}

fn push_refusal(page: &mut Page, refusal: Refusal) -> Result<(), OutOfMemory>
    ensures { OnOk result (page.new ≡ spaced page.old (refusal_words refusal)) }
{
    match refusal {
        Refusal::WrongPhase { phase } => push_with_phase(page, "WrongPhase", phase),
        Refusal::InitRefused => page.word("InitRefused"),
        Refusal::NotPaused => page.word("NotPaused"),
        Refusal::Busy { n } => push_counted(page, " Busy ", n),
        Refusal::Full => page.word("Full"),
        Refusal::BadPosition => page.word("BadPosition"),
        Refusal::ShelfEmpty => page.word("ShelfEmpty"),
        Refusal::AttachRefused => page.word("AttachRefused"),
        Refusal::NoModule => page.word("NoModule"),
        Refusal::Paused { phase } => push_with_phase(page, "Paused", phase),
        Refusal::NoList => page.word("NoList"),
        Refusal::NotRunning => page.word("NotRunning"),
        Refusal::NotHeld => page.word("NotHeld"),
        Refusal::Unbound => page.word("Unbound"),
        Refusal::HaltedNow => page.word("HaltedNow"),
        Refusal::TooLong => page.word("TooLong"),
        Refusal::NotTaken => page.word("NotTaken"),
    }
}

pub fn push_refused(page: &mut Page, refusal: Refusal) -> Result<(), OutOfMemory>
    ensures { OnOk result (page.new ≡ spaced (word page.old (codes "refused")) (refusal_words refusal)) }
{
    page.text(" refused")?;
    push_refusal(page, refusal)
}

pub fn push_reply(page: &mut Page, reply: &Reply) -> Result<(), OutOfMemory>
    ensures { OnOk result (page.new ≡ spaced page.old (reply_words reply.now)) }
{
    match reply {
        Reply::Ok => page.text(" ok"),
        Reply::Inserted { filter } => push_with_filter(page, "inserted", *filter),
        Reply::Removed => page.word("removed"),
        Reply::Replaced { filter } => push_with_filter(page, "replaced", *filter),
        Reply::Sent { list } => push_counted(page, " sent ", list.0),
        Reply::Indicated { list } => push_counted(page, " indicated ", list.0),
        Reply::Lent { list } => push_counted(page, " lent ", list.0),
        Reply::Cancelled { n } => push_counted(page, " cancelled ", *n),
        Reply::Asked { request } => push_counted(page, " asked ", request.0),
        Reply::Wired { list } => push_counted(page, " wired ", list.0),
        Reply::Moved => page.text(" moved"),
        Reply::Idle => page.text(" idle"),
        Reply::Next => page.word("next"),
        Reply::Paused => page.word("paused"),
        Reply::Running => page.word("running"),
        Reply::Waiting { n } => push_counted(page, " waiting ", *n),
        Reply::Halted => page.word("halted"),
        Reply::Taken { message, .. } => push_counted(page, " taken ", message.0),
        Reply::Nothing => page.word("nothing"),
        Reply::Crossed { list } => push_counted(page, " crossed ", list.0),
        Reply::Refused(refusal) => push_refused(page, *refusal),
    }
}
