//! The laws of sound journals at a journal that is there: a stack of a ring adapter and one log
//! protocol is walked through its opening, one send of one frame, its pause and its halt.
#![tactic(auto)]

ghost use Rattle.std.specs.Prelude.{◌≡◌, [], IfOk, IfSome, OnOk, true};
ghost use Rattle.ndis_base.specs.declared.Phase.TheVariants as Phase;
ghost use Rattle.stack_rules.specs.Net.{seen};
ghost use Rattle.stack_rules.specs.Sound.{Sound};
ghost use Rattle.law_examples.specs.Laws.{MeetsLaws};

use ended_laws::{each_is_home_when_halted, the_state_stands};
use home_laws::{frames_as_issued, lists_home_once, lists_issued_once};
use journal_types::{BindingSetups, Event, Frames, PortSetup, StackHead, UpperLinks};
use ndis_base::{Frame, LaneNo, MiniportKind, OutOfMemory, Phase, ProtocolKind, Who};
use pause_laws::{halted_stack_is_empty, paused_holds_nothing};
use plain_stack::may_ask;
use plain_walk::WalkedStack;
use std::alloc::Global;

const FRAME: [u8; 14] = [255, 255, 255, 255, 255, 255, 2, 0, 0, 0, 0, 1, 8, 0];

fn head(alloc: Global) -> Result<StackHead, OutOfMemory> {
    let mut bindings = Vec::new(alloc);
    bindings.push((ProtocolKind::Log, 4))?;
    Ok(StackHead {
        stack: 0,
        kind: MiniportKind::Ring,
        port: PortSetup {
            address: [2, 0, 0, 0, 0, 1],
            ring: 4,
            pool: 4,
            vlan: None,
        },
        link: None,
        bindings: BindingSetups::of(bindings),
        uppers: UpperLinks::of(Vec::new(alloc)),
    })
}

fn send(alloc: Global) -> Result<Event, OutOfMemory> {
    let mut frames = Vec::new(alloc);
    frames.push(Frame::make(alloc, &FRAME)?)?;
    Ok(Event::Send {
        binding: 0,
        cancel: None,
        frames: Frames::of(frames),
    })
}

/// What is asked in each turn, from 0: the opening, the send and its tail, the ending.
fn asked_at(alloc: Global, turn: usize) -> Result<Option<(Who, Event)>, OutOfMemory> {
    Ok(match turn {
        0 => Some((Who::Own, Event::Initialize)),
        1 | 2 => Some((Who::Own, Event::RestartNext)),
        3 => Some((Who::Call(LaneNo(0)), send(alloc)?)),
        4 | 5 => Some((Who::Help(LaneNo(0)), Event::Pump)),
        6 | 14 => Some((Who::Own, Event::Pump)),
        7 => Some((Who::Own, Event::BeginPause)),
        8 | 10 | 12 | 13 => Some((Who::Own, Event::PauseNext)),
        9 | 11 => Some((Who::Own, Event::Drain)),
        15 => Some((Who::Own, Event::Halt)),
        _ => None,
    })
}

/// One turn, where the event may be asked: a sound journal stays sound.
pub fn ask(stack: &mut WalkedStack, who: Who, event: Event) -> Result<bool, OutOfMemory>
    requires { Sound stack.old.head stack.old.turns }
    ensures { IfOk result (λ done. done ≡ true → Sound stack.new.head stack.new.turns) }
{
    if !may_ask(stack.head(), &event) {
        return Ok(false);
    }
    stack.turn(who, event)?;
    Ok(true)
}

/// All turns, where each event may be asked.
fn walk_all(alloc: Global, stack: WalkedStack) -> Result<Option<WalkedStack>, OutOfMemory>
    requires { Sound stack.head stack.turns }
    ensures { IfOk result (λ walked. IfSome walked (λ w. Sound w.head w.turns)) }
{
    let mut stack = stack;
    for turn in 0..16 {
        let Some((who, event)) = asked_at(alloc, turn)? else {
            return Ok(None);
        };
        if !ask(&mut stack, who, event)? {
            return Ok(None);
        }
    }
    Ok(Some(stack))
}

fn is_halted(phase: Phase) -> bool
    ensures { result ≡ true → phase ≡ Phase.Halted }
{
    matches!(phase, Phase::Halted)
}

/// Each law holds of a sound journal that ends Halted.
fn see_laws(stack: &WalkedStack)
    requires sound { Sound stack.now.head stack.now.turns }
    requires halted { (seen stack.now.head stack.now.turns).phase ≡ Phase.Halted }
    ensures { MeetsLaws stack.now.head stack.now.turns }
{
    lists_issued_once();
    lists_home_once();
    frames_as_issued();
    paused_holds_nothing();
    halted_stack_is_empty();
    each_is_home_when_halted();
    the_state_stands();
}

/// The journal of one frame that is sent: it is sound, and each law holds of it. There is none where
/// an event may not be asked or the stack isn't Halted at the end, which a test of `unit_tests` sees
/// not to be so.
pub fn one_frame(alloc: Global) -> Result<Option<WalkedStack>, OutOfMemory>
    ensures sound { IfOk result (λ walked. IfSome walked (λ w. Sound w.head w.turns)) }
    ensures laws { IfOk result (λ walked. IfSome walked (λ w. MeetsLaws w.head w.turns)) }
{
    let stack = WalkedStack::start(alloc, head(alloc)?)?;
    let Some(stack) = walk_all(alloc, stack)? else {
        return Ok(None);
    };
    if !is_halted(stack.phase()?) {
        return Ok(None);
    }
    see_laws(&stack);
    Ok(Some(stack))
}
