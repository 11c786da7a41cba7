//! The events that a script's calls ask.
#![tactic(auto)]

ghost use Rattle.std.specs.Prelude.{◌≡◌, Some, IfOk};
ghost use Rattle.journal_types.specs.declared.Event.TheVariants as events;
ghost use Rattle.script_events.specs.Events.{event_of};

use frame_rules::copy;
use journal_types::{Event, Frames, Setup};
use ndis_base::{FilterKind, Frame, OutOfMemory};
use script_types::CallKind;
use std::alloc::Global;

fn copy_frames(alloc: Global, frames: &Frames) -> Result<Frames, OutOfMemory>
    ensures { IfOk result (λ f. f ≡ frames.now) }
{
    let mut copies = Vec::new(alloc);
    for frame in frames.items() {
        copies.push(Frame::make(alloc, frame.bytes())?)?;
    }
    Ok(Frames::of(copies))
}

fn copy_setup(alloc: Global, setup: &Setup) -> Result<Setup, OutOfMemory>
    ensures { IfOk result (λ s. s ≡ setup.now) }
{
    Ok(Setup {
        handlers: setup.handlers,
        pool: setup.pool,
        send: copy(alloc, &setup.send)?,
        receive: copy(alloc, &setup.receive)?,
    })
}

fn send_event(
    alloc: Global,
    binding: u32,
    cancel: Option<u32>,
    frames: &Frames,
) -> Result<Option<Event>, OutOfMemory>
    ensures { IfOk result (λ event. event ≡ Some (events.Send binding cancel frames.now)) }
{
    let frames = copy_frames(alloc, frames)?;
    Ok(Some(Event::Send {
        binding,
        cancel,
        frames,
    }))
}

fn indicate_event(alloc: Global, frames: &Frames) -> Result<Option<Event>, OutOfMemory>
    ensures { IfOk result (λ event. event ≡ Some (events.Indicate frames.now)) }
{
    let frames = copy_frames(alloc, frames)?;
    Ok(Some(Event::Indicate { frames }))
}

fn lend_event(alloc: Global, frames: &Frames) -> Result<Option<Event>, OutOfMemory>
    ensures { IfOk result (λ event. event ≡ Some (events.Lend frames.now)) }
{
    let frames = copy_frames(alloc, frames)?;
    Ok(Some(Event::Lend { frames }))
}

fn insert_event(
    alloc: Global,
    kind: FilterKind,
    position: u8,
    setup: &Setup,
) -> Result<Option<Event>, OutOfMemory>
    ensures { IfOk result (λ event. event ≡ Some (events.Insert kind position setup.now)) }
{
    let setup = copy_setup(alloc, setup)?;
    Ok(Some(Event::Insert {
        kind,
        position,
        setup,
    }))
}

fn replace_event(
    alloc: Global,
    filter: u64,
    kind: FilterKind,
    setup: &Setup,
) -> Result<Option<Event>, OutOfMemory>
    ensures { IfOk result (λ event. event ≡ Some (events.Replace filter kind setup.now)) }
{
    let setup = copy_setup(alloc, setup)?;
    Ok(Some(Event::Replace {
        filter,
        kind,
        setup,
    }))
}

/// The event that a call asks of its stack. A relay asks none: it takes from one stack and puts into
/// another.
pub fn event_of_call(alloc: Global, kind: &CallKind) -> Result<Option<Event>, OutOfMemory>
    ensures { IfOk result (λ event. event ≡ event_of kind.now) }
{
    match kind {
        CallKind::Send {
            binding,
            cancel,
            frames,
        } => send_event(alloc, *binding, *cancel, frames),
        CallKind::Indicate { frames } => indicate_event(alloc, frames),
        CallKind::Lend { frames } => lend_event(alloc, frames),
        CallKind::GiveBack { binding, list } => Ok(Some(Event::GiveBack {
            binding: *binding,
            list: *list,
        })),
        CallKind::Cancel { id } => Ok(Some(Event::Cancel { id: *id })),
        CallKind::Ask {
            binding,
            kind,
            code,
            value,
        } => Ok(Some(Event::Ask {
            binding: *binding,
            kind: *kind,
            code: *code,
            value: value.copy(),
        })),
        CallKind::Status { name } => Ok(Some(Event::Status { name: *name })),
        CallKind::Transmit => Ok(Some(Event::Transmit)),
        CallKind::Pump => Ok(Some(Event::Pump)),
        CallKind::Drain => Ok(Some(Event::Drain)),
        CallKind::BeginPause => Ok(Some(Event::BeginPause)),
        CallKind::PauseNext => Ok(Some(Event::PauseNext)),
        CallKind::RestartNext => Ok(Some(Event::RestartNext)),
        CallKind::Insert {
            position,
            kind,
            setup,
        } => insert_event(alloc, *kind, *position, setup),
        CallKind::Remove { filter } => Ok(Some(Event::Remove { filter: *filter })),
        CallKind::Replace {
            filter,
            kind,
            setup,
        } => replace_event(alloc, *filter, *kind, setup),
        CallKind::Relay { .. } => Ok(None),
    }
}
