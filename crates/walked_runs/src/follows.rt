//! Whether journals follow their script: each lane's calls in their turns and tails, and each stack opened
//! before all calls and ended after them.
use journal_types::Turn;
use ndis_base::{LaneNo, OutOfMemory};
use plain_followed::{is_followed, is_opened_and_ended};
use plain_walk::WalkedStack;
use script_types::Script;
use std::alloc::Global;
use std::io;

/// Whether each lane is followed, and each stack opened and ended.
#[derive(Clone, Copy)]
pub struct Followed {
    lanes: bool,
    ends: bool,
}

fn are_followed(
    alloc: Global,
    script: &Script,
    stacks: &[WalkedStack],
) -> Result<bool, OutOfMemory> {
    let mut journals: Vec<&[Turn]> = Vec::new(alloc);
    for stack in stacks {
        journals.push(stack.journal().turns())?;
    }
    for lane in 0..script.lanes {
        if !is_followed(
            alloc,
            script.stacks.items(),
            LaneNo(lane),
            script.calls.items(),
            journals.as_slice(),
        )? {
            return Ok(false);
        }
    }
    Ok(true)
}

fn are_opened_and_ended(
    alloc: Global,
    script: &Script,
    stacks: &[WalkedStack],
) -> Result<bool, OutOfMemory> {
    let setups = script.stacks.items();
    for (i, stack) in stacks.iter().enumerate() {
        if setups.len() <= i {
            return Ok(false);
        }
        let journal = stack.journal();
        let filters = setups[i].filters.items();
        if !is_opened_and_ended(alloc, journal.head(), filters, journal.turns())? {
            return Ok(false);
        }
    }
    Ok(true)
}

/// Whether the journals of stacks follow their script.
pub fn followed_by(
    alloc: Global,
    script: &Script,
    stacks: &[WalkedStack],
) -> Result<Followed, OutOfMemory> {
    Ok(Followed {
        lanes: are_followed(alloc, script, stacks)?,
        ends: are_opened_and_ended(alloc, script, stacks)?,
    })
}

fn word(holds: bool) -> &'static str {
    if holds { "ok" } else { "not" }
}

/// Tells whether the journals of a run follow their script, in one line.
pub fn tell(rt: &HostRuntime, name: &str, followed: Followed) -> io::Result<()> {
    let lanes = word(followed.lanes);
    let ends = word(followed.ends);
    println!(rt; "{name} followed {lanes} opened {ends}")
}
