//! The state after the first turns of a journal, and the work that is left there.
ghost use Rattle.std.specs.Prelude.{◌≡◌, IfOk, OnOk, drop, take};
ghost use Rattle.stack_rules.specs.Net.{after_turns, seen};
ghost use Rattle.stack_rules.specs.Work.{work};

use journal_types::{StackHead, Turn};
use ndis_base::OutOfMemory;
use plain_stack::{PlainNet, note_turn};
use plain_walk::WalkedStack;
use plain_work::work;
use std::alloc::Global;

/// The first turns of a journal; all, where it has no more.
pub fn first_turns(turns: &[Turn], many: usize) -> &[Turn]
    ensures { result.now ≡ take many turns.now }
{
    if many < turns.len() {
        &turns[..many]
    } else {
        turns
    }
}

/// The others.
pub fn other_turns(turns: &[Turn], many: usize) -> &[Turn]
    ensures { result.now ≡ drop many turns.now }
{
    if many < turns.len() {
        &turns[many..]
    } else {
        &turns[turns.len()..]
    }
}

fn note_turns(net: &mut PlainNet, turns: &[Turn]) -> Result<(), OutOfMemory>
    ensures { OnOk result (net.new ≡ after_turns net.old turns.now) }
{
    match turns {
        [] => Ok(()),
        [turn, others @ ..] => {
            note_turn(net, turn)?;
            note_turns(net, others)
        }
    }
}

/// The state after turns.
pub fn state_after(alloc: Global, head: &StackHead, turns: &[Turn]) -> Result<PlainNet, OutOfMemory>
    ensures { IfOk result (λ net. net ≡ seen head.now turns.now) }
{
    let mut net = PlainNet::start(alloc, head)?;
    note_turns(&mut net, turns)?;
    Ok(net)
}

/// How much there was to do after the first turns of a stack's journal.
pub fn work_at(alloc: Global, stack: &WalkedStack, many: usize) -> Result<u64, OutOfMemory>
    ensures { IfOk result (λ n. n ≡ work (seen stack.now.head (take many stack.now.turns))) }
{
    let turns = first_turns(stack.journal().turns(), many);
    let net = state_after(alloc, stack.head(), turns)?;
    work(alloc, &net)
}
