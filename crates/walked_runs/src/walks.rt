//! Scripts that are walked, and the reports of their journals.
use ndis_base::OutOfMemory;
use ndis_journal::write_text;
use plain_walk::{WalkedStack, walk};
use script_file::ScriptFault;
use script_types::Script;
use std::alloc::Global;

/// Why a script wasn't walked.
#[derive(Clone, Copy, Debug)]
pub enum Fault {
    Script(ScriptFault),
    Memory,
}

impl From<OutOfMemory> for Fault {
    fn from(_fault: OutOfMemory) -> Fault {
        Fault::Memory
    }
}

impl From<ScriptFault> for Fault {
    fn from(fault: ScriptFault) -> Fault {
        Fault::Script(fault)
    }
}

/// The lanes of an order, separated by commas.
fn lanes_of(alloc: Global, order: &str) -> Result<Vec<u8>, OutOfMemory> {
    let mut lanes = Vec::new(alloc);
    for byte in order.as_bytes() {
        if b'0' <= *byte && *byte <= b'9' {
            lanes.push(*byte - b'0')?;
        }
    }
    Ok(lanes)
}

/// The stacks of a script, walked in an order of its lanes.
pub fn walked(
    alloc: Global,
    script: &Script,
    order: &str,
) -> Result<Vec<WalkedStack>, OutOfMemory> {
    let lanes = lanes_of(alloc, order)?;
    walk(alloc, script, lanes.as_slice())
}

/// The journals of stacks, written one behind the other.
pub fn report_of(alloc: Global, stacks: &[WalkedStack]) -> Result<Vec<u8>, OutOfMemory> {
    let mut report = Vec::new(alloc);
    for stack in stacks {
        write_text(stack.journal(), &mut report)?;
    }
    Ok(report)
}

/// How many bytes are the same from the front on.
pub fn same_in_front(a: &[u8], b: &[u8]) -> usize {
    for (i, x) in a.iter().enumerate() {
        if b.len() <= i || b[i] != *x {
            return i;
        }
    }
    a.len()
}
