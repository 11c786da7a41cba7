//! The journals of the two pauses.
ghost use Rattle.std.specs.Prelude.{◌≡◌, IfOk, IfSome, true, drop, take};
ghost use Rattle.stack_rules.specs.Sound.{Sound};
ghost use Rattle.drain_examples.specs.Laws.{MeetsLaws};

use crate::laws::shows_laws;
use journal_types::{BindingSetups, Event, Frames, PortSetup, Setup, StackHead, UpperLinks};
use law_examples::ask;
use ndis_base::{
    FilterKind, Frame, Handlers, LaneNo, MiniportKind, OutOfMemory, ProtocolKind, Who,
};
use plain_walk::WalkedStack;
use program_types::Program;
use std::alloc::Global;

/// The turns until the pause of the ring has begun.
pub const RING_BEGUN: usize = 8;

/// The turns until the pause of the hold filter has begun.
pub const HOLD_BEGUN: usize = 9;

const FRAME: [u8; 14] = [255, 255, 255, 255, 255, 255, 2, 0, 0, 0, 0, 1, 8, 0];

const CALL: Who = Who::Call(LaneNo(0));

const HELP: Who = Who::Help(LaneNo(0));

/// A ring adapter and one log protocol.
fn head(alloc: Global) -> Result<StackHead, OutOfMemory> {
    let mut bindings = Vec::new(alloc);
    bindings.push((ProtocolKind::Log, 4))?;
    Ok(StackHead {
        stack: 0,
        kind: MiniportKind::Ring,
        port: PortSetup {
            address: [2, 0, 0, 0, 0, 1],
            ring: 4,
            pool: 4,
            vlan: None,
        },
        link: None,
        bindings: BindingSetups::of(bindings),
        uppers: UpperLinks::of(Vec::new(alloc)),
    })
}

fn send(alloc: Global) -> Result<Event, OutOfMemory> {
    let mut frames = Vec::new(alloc);
    frames.push(Frame::make(alloc, &FRAME)?)?;
    Ok(Event::Send {
        binding: 0,
        cancel: None,
        frames: Frames::of(frames),
    })
}

/// A hold filter with the send and the receive pair goes in at the top.
fn insert(alloc: Global) -> Event {
    Event::Insert {
        kind: FilterKind::Hold,
        position: 1,
        setup: Setup {
            handlers: Handlers {
                send: true,
                receive: true,
                oid: false,
                status: false,
            },
            pool: 4,
            send: Program::of(Vec::new(alloc)),
            receive: Program::of(Vec::new(alloc)),
        },
    }
}

/// What is asked in each turn of the ring's journal, from 0: the opening, the send and its tail, the pause.
fn asked_of_ring(alloc: Global, turn: usize) -> Result<Option<(Who, Event)>, OutOfMemory> {
    Ok(match turn {
        0 => Some((Who::Own, Event::Initialize)),
        1 | 2 => Some((Who::Own, Event::RestartNext)),
        3 => Some((CALL, send(alloc)?)),
        4 | 5 => Some((HELP, Event::Pump)),
        6 => Some((Who::Own, Event::Pump)),
        7 => Some((Who::Own, Event::BeginPause)),
        8 | 10 | 12 | 13 => Some((Who::Own, Event::PauseNext)),
        9 | 11 => Some((Who::Own, Event::Drain)),
        _ => None,
    })
}

/// What is asked in each turn of the hold filter's journal, from 0: the opening, the send and its tail, the
/// pause and its tail.
fn asked_of_hold(alloc: Global, turn: usize) -> Result<Option<(Who, Event)>, OutOfMemory> {
    Ok(match turn {
        0 => Some((Who::Own, Event::Initialize)),
        1 => Some((Who::Own, insert(alloc))),
        2 | 3 | 4 => Some((Who::Own, Event::RestartNext)),
        5 => Some((CALL, send(alloc)?)),
        6 | 7 => Some((HELP, Event::Pump)),
        8 => Some((CALL, Event::BeginPause)),
        9 | 11 | 13 | 15 | 17 | 19 | 20 | 21 => Some((HELP, Event::PauseNext)),
        10 | 12 | 14 | 16 | 18 => Some((HELP, Event::Drain)),
        _ => None,
    })
}

fn walk_ring(alloc: Global) -> Result<Option<WalkedStack>, OutOfMemory>
    ensures { IfOk result (λ walked. IfSome walked (λ w. Sound w.head w.turns)) }
{
    let mut stack = WalkedStack::start(alloc, head(alloc)?)?;
    for turn in 0..14 {
        let Some((who, event)) = asked_of_ring(alloc, turn)? else {
            return Ok(None);
        };
        if !ask(&mut stack, who, event)? {
            return Ok(None);
        }
    }
    Ok(Some(stack))
}

fn walk_hold(alloc: Global) -> Result<Option<WalkedStack>, OutOfMemory>
    ensures { IfOk result (λ walked. IfSome walked (λ w. Sound w.head w.turns)) }
{
    let mut stack = WalkedStack::start(alloc, head(alloc)?)?;
    for turn in 0..22 {
        let Some((who, event)) = asked_of_hold(alloc, turn)? else {
            return Ok(None);
        };
        if !ask(&mut stack, who, event)? {
            return Ok(None);
        }
    }
    Ok(Some(stack))
}

/// The journal of a stack that pauses with a frame in its miniport's ring: it is sound, and each law holds
/// of it. There is none where an event may not be asked, which a test of `unit_tests` sees not
/// to be so.
pub fn ring_pause(alloc: Global) -> Result<Option<WalkedStack>, OutOfMemory>
    ensures sound { IfOk result (λ walked. IfSome walked (λ w. Sound w.head w.turns)) }
    ensures laws { IfOk result (λ walked. IfSome walked (λ w. MeetsLaws w.head (take 8 w.turns) (drop 8 w.turns))) }
{
    let Some(stack) = walk_ring(alloc)? else {
        return Ok(None);
    };
    if !shows_laws(alloc, &stack, RING_BEGUN)? {
        return Ok(None);
    }
    Ok(Some(stack))
}

/// The journal of a stack that pauses with a frame in its hold filter: it is sound, and each law holds of it.
/// There is none where an event may not be asked, which a test of `unit_tests` sees not
/// to be so.
pub fn hold_pause(alloc: Global) -> Result<Option<WalkedStack>, OutOfMemory>
    ensures sound { IfOk result (λ walked. IfSome walked (λ w. Sound w.head w.turns)) }
    ensures laws { IfOk result (λ walked. IfSome walked (λ w. MeetsLaws w.head (take 9 w.turns) (drop 9 w.turns))) }
{
    let Some(stack) = walk_hold(alloc)? else {
        return Ok(None);
    };
    if !shows_laws(alloc, &stack, HOLD_BEGUN)? {
        return Ok(None);
    }
    Ok(Some(stack))
}
