//! Owned turns, copied into a journal.
ghost use Rattle.std.specs.Prelude.{◌≡◌, option_map};
ghost use Rattle.flat_journal.specs.Copied.{row_frames, row_value, row_filters, event_frames, event_value, event_setup, reply_frames, flat_row_of, flat_event_of, flat_reply_of};

use crate::types::{FilterSpan, FlatEvent, FlatReply, FlatRow, SetupNo, ValueNo};
use frame_arena::FrameSpan;
use journal_types::{Event, Reply, Row, Setup};
use ndis_base::{Frame, OidValue};

/// Where what a row refers to stands. What the row has not is of no account.
#[derive(Clone, Copy)]
pub(crate) struct RowPlaces {
    pub frames: FrameSpan,
    pub value: ValueNo,
    pub filters: FilterSpan,
}

/// Where what an event refers to stands. What the event has not is of no account.
#[derive(Clone, Copy)]
pub(crate) struct EventPlaces {
    pub frames: FrameSpan,
    pub value: ValueNo,
    pub setup: SetupNo,
}

pub(crate) fn frames_of_row(row: &Row) -> &[Frame]
    ensures { result.now ≡ row_frames row.now }
{
    match row {
        Row::Issue { frames, .. }
        | Row::Wire { frames, .. }
        | Row::Deliver { frames, .. }
        | Row::CrossOut { frames, .. }
        | Row::CrossIn { frames, .. } => frames.items(),
        _ => &[],
    }
}

pub(crate) fn value_of_row(row: &Row) -> Option<&OidValue>
    ensures { option_map (λ value. value.now) result ≡ row_value row.now }
{
    match row {
        Row::OidIssue { value, .. } | Row::OidDone { value, .. } => Some(value),
        _ => None,
    }
}

pub(crate) fn filters_of_row(row: &Row) -> &[u64]
    ensures { result.now ≡ row_filters row.now }
{
    match row {
        Row::Config { filters, .. } => filters.items(),
        _ => &[],
    }
}

pub(crate) fn frames_of_event(event: &Event) -> &[Frame]
    ensures { result.now ≡ event_frames event.now }
{
    match event {
        Event::Send { frames, .. }
        | Event::Indicate { frames }
        | Event::Lend { frames }
        | Event::CrossPut { frames, .. }
        | Event::CrossPutUp { frames, .. } => frames.items(),
        _ => &[],
    }
}

pub(crate) fn value_of_event(event: &Event) -> Option<&OidValue>
    ensures { option_map (λ value. value.now) result ≡ event_value event.now }
{
    match event {
        Event::Ask { value, .. } => Some(value),
        _ => None,
    }
}

pub(crate) fn setup_of_event(event: &Event) -> Option<&Setup>
    ensures { option_map (λ setup. setup.now) result ≡ event_setup event.now }
{
    match event {
        Event::Insert { setup, .. } | Event::Replace { setup, .. } => Some(setup),
        _ => None,
    }
}

pub(crate) fn frames_of_reply(reply: &Reply) -> &[Frame]
    ensures { result.now ≡ reply_frames reply.now }
{
    match reply {
        Reply::Taken { frames, .. } => frames.items(),
        _ => &[],
    }
}

/// The same row, which refers to these places.
pub(crate) fn flat_row(places: RowPlaces, row: &Row) -> FlatRow
    ensures { result ≡ flat_row_of places row.now }
{
    match row {
        Row::Issue {
            list,
            owner,
            config,
            direction,
            cancel,
            origin,
            ..
        } => FlatRow::Issue {
            list: *list,
            owner: *owner,
            config: *config,
            direction: *direction,
            cancel: *cancel,
            origin: *origin,
            frames: places.frames,
        },
        Row::Give {
            list,
            module,
            handler,
        } => FlatRow::Give {
            list: *list,
            module: *module,
            handler: *handler,
        },
        Row::Pass { list, way, to } => FlatRow::Pass {
            list: *list,
            way: *way,
            to: *to,
        },
        Row::Keep { list, module } => FlatRow::Keep {
            list: *list,
            module: *module,
        },
        Row::TurnBack {
            list,
            module,
            status,
        } => FlatRow::TurnBack {
            list: *list,
            module: *module,
            status: *status,
        },
        Row::Home {
            list,
            owner,
            status,
        } => FlatRow::Home {
            list: *list,
            owner: *owner,
            status: *status,
        },
        Row::Wire { list, .. } => FlatRow::Wire {
            list: *list,
            frames: places.frames,
        },
        Row::Deliver {
            list,
            binding,
            how,
            ..
        } => FlatRow::Deliver {
            list: *list,
            binding: *binding,
            how: *how,
            frames: places.frames,
        },
        Row::Phase { of } => FlatRow::Phase { of: *of },
        Row::Config { config, .. } => FlatRow::Config {
            config: *config,
            filters: places.filters,
        },
        Row::OidIssue {
            request,
            parent,
            binding,
            kind,
            code,
            ..
        } => FlatRow::OidIssue {
            request: *request,
            parent: *parent,
            binding: *binding,
            kind: *kind,
            code: *code,
            value: places.value,
        },
        Row::OidGive { request, module } => FlatRow::OidGive {
            request: *request,
            module: *module,
        },
        Row::OidDone {
            request,
            status,
            ..
        } => FlatRow::OidDone {
            request: *request,
            status: *status,
            value: places.value,
        },
        Row::Status { number, name, to } => FlatRow::Status {
            number: *number,
            name: *name,
            to: *to,
        },
        Row::Seen { number, module } => FlatRow::Seen {
            number: *number,
            module: *module,
        },
        Row::CrossOut { message, way, .. } => FlatRow::CrossOut {
            message: *message,
            way: *way,
            frames: places.frames,
        },
        Row::CrossIn {
            stack,
            message,
            way,
            ..
        } => FlatRow::CrossIn {
            stack: *stack,
            message: *message,
            way: *way,
            frames: places.frames,
        },
    }
}

/// The same event, which refers to these places.
pub(crate) fn flat_event(places: EventPlaces, event: &Event) -> FlatEvent
    ensures { result ≡ flat_event_of places event.now }
{
    match event {
        Event::Initialize => FlatEvent::Initialize,
        Event::Insert { kind, position, .. } => FlatEvent::Insert {
            kind: *kind,
            position: *position,
            setup: places.setup,
        },
        Event::Remove { filter } => FlatEvent::Remove { filter: *filter },
        Event::Replace { filter, kind, .. } => FlatEvent::Replace {
            filter: *filter,
            kind: *kind,
            setup: places.setup,
        },
        Event::Send {
            binding,
            cancel,
            ..
        } => FlatEvent::Send {
            binding: *binding,
            cancel: *cancel,
            frames: places.frames,
        },
        Event::Indicate { .. } => FlatEvent::Indicate {
            frames: places.frames,
        },
        Event::Lend { .. } => FlatEvent::Lend {
            frames: places.frames,
        },
        Event::GiveBack { binding, list } => FlatEvent::GiveBack {
            binding: *binding,
            list: *list,
        },
        Event::Cancel { id } => FlatEvent::Cancel { id: *id },
        Event::Ask {
            binding,
            kind,
            code,
            ..
        } => FlatEvent::Ask {
            binding: *binding,
            kind: *kind,
            code: *code,
            value: places.value,
        },
        Event::Status { name } => FlatEvent::Status { name: *name },
        Event::Transmit => FlatEvent::Transmit,
        Event::Pump => FlatEvent::Pump,
        Event::Drain => FlatEvent::Drain,
        Event::BeginPause => FlatEvent::BeginPause,
        Event::PauseNext => FlatEvent::PauseNext,
        Event::RestartNext => FlatEvent::RestartNext,
        Event::Halt => FlatEvent::Halt,
        Event::CrossTake => FlatEvent::CrossTake,
        Event::CrossPut {
            stack,
            message,
            vlan,
            ..
        } => FlatEvent::CrossPut {
            stack: *stack,
            message: *message,
            vlan: *vlan,
            frames: places.frames,
        },
        Event::CrossDone { message, status } => FlatEvent::CrossDone {
            message: *message,
            status: *status,
        },
        Event::CrossTakeUp { binding, vlan } => FlatEvent::CrossTakeUp {
            binding: *binding,
            vlan: *vlan,
        },
        Event::CrossPutUp { stack, message, .. } => FlatEvent::CrossPutUp {
            stack: *stack,
            message: *message,
            frames: places.frames,
        },
    }
}

/// The same reply, which refers to these places.
pub(crate) fn flat_reply(frames: FrameSpan, reply: &Reply) -> FlatReply
    ensures { result ≡ flat_reply_of frames reply.now }
{
    match reply {
        Reply::Ok => FlatReply::Ok,
        Reply::Inserted { filter } => FlatReply::Inserted { filter: *filter },
        Reply::Removed => FlatReply::Removed,
        Reply::Replaced { filter } => FlatReply::Replaced { filter: *filter },
        Reply::Sent { list } => FlatReply::Sent { list: *list },
        Reply::Indicated { list } => FlatReply::Indicated { list: *list },
        Reply::Lent { list } => FlatReply::Lent { list: *list },
        Reply::Cancelled { n } => FlatReply::Cancelled { n: *n },
        Reply::Asked { request } => FlatReply::Asked { request: *request },
        Reply::Wired { list } => FlatReply::Wired { list: *list },
        Reply::Moved => FlatReply::Moved,
        Reply::Idle => FlatReply::Idle,
        Reply::Next => FlatReply::Next,
        Reply::Paused => FlatReply::Paused,
        Reply::Running => FlatReply::Running,
        Reply::Waiting { n } => FlatReply::Waiting { n: *n },
        Reply::Halted => FlatReply::Halted,
        Reply::Taken { message, .. } => FlatReply::Taken {
            message: *message,
            frames,
        },
        Reply::Nothing => FlatReply::Nothing,
        Reply::Crossed { list } => FlatReply::Crossed { list: *list },
        Reply::Refused(why) => FlatReply::Refused(*why),
    }
}
