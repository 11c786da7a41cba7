//! What is promised of every sound journal, asked of journals: whether their lists met their fates, whether
//! each kept to one configuration, whether their requests completed once and whether their stacks are linked;
//! and how often their drivers were called, and how many entries their logs have.
use journal_types::{Reply, StackHead, Turn};
use ndis_base::{ModuleId, OutOfMemory};
use plain_calls::{log_of, served};
use plain_carried::has_one_configuration;
use plain_fates::has_fates;
use plain_links::{are_completed, are_linked, completes_once};
use plain_walk::WalkedStack;
use promise_rules::Called;
use std::alloc::Global;
use std::io;

/// Which promises hold of the journals of a run.
#[derive(Clone, Copy)]
struct Kept {
    fates: bool,
    configuration: bool,
    requests: bool,
    links: bool,
}

/// How often the drivers of a run were called, by what for, and how many entries their logs have.
#[derive(Clone, Copy)]
struct Counts {
    send: u64,
    send_complete: u64,
    receive: u64,
    receive_lent: u64,
    returned: u64,
    oid: u64,
    oid_complete: u64,
    status: u64,
    logged: u64,
}

/// What journals answer.
#[derive(Clone, Copy)]
pub struct Promised {
    kept: Kept,
    counts: Counts,
}

fn have_fates(alloc: Global, stacks: &[WalkedStack]) -> Result<bool, OutOfMemory> {
    for stack in stacks {
        let journal = stack.journal();
        if !has_fates(alloc, journal.head(), journal.turns())? {
            return Ok(false);
        }
    }
    Ok(true)
}

fn have_one_configuration(alloc: Global, stacks: &[WalkedStack]) -> Result<bool, OutOfMemory> {
    for stack in stacks {
        let journal = stack.journal();
        if !has_one_configuration(alloc, journal.head(), journal.turns())? {
            return Ok(false);
        }
    }
    Ok(true)
}

fn complete_once(stacks: &[WalkedStack]) -> Result<bool, OutOfMemory> {
    for stack in stacks {
        let turns = stack.journal().turns();
        if !completes_once(turns)? || !are_completed(turns) {
            return Ok(false);
        }
    }
    Ok(true)
}

fn link(alloc: Global, stacks: &[WalkedStack]) -> Result<bool, OutOfMemory> {
    let mut journals: Vec<&[Turn]> = Vec::new(alloc);
    for stack in stacks {
        journals.push(stack.journal().turns())?;
    }
    are_linked(alloc, journals.as_slice())
}

fn kept_by(alloc: Global, stacks: &[WalkedStack]) -> Result<Kept, OutOfMemory> {
    Ok(Kept {
        fates: have_fates(alloc, stacks)?,
        configuration: have_one_configuration(alloc, stacks)?,
        requests: complete_once(stacks)?,
        links: link(alloc, stacks)?,
    })
}

/// The modules that a stack ever had.
fn modules_of(
    alloc: Global,
    head: &StackHead,
    turns: &[Turn],
) -> Result<Vec<ModuleId>, OutOfMemory> {
    let mut modules = Vec::new(alloc);
    modules.push(ModuleId::Miniport)?;
    let mut binding = 0u32;
    for _ in head.bindings.items() {
        modules.push(ModuleId::Binding(binding))?;
        binding = binding.saturating_add(1);
    }
    for turn in turns {
        match turn.reply {
            Reply::Inserted { filter } => modules.push(ModuleId::Filter(filter))?,
            Reply::Replaced { filter } => modules.push(ModuleId::Filter(filter))?,
            _ => {}
        }
    }
    Ok(modules)
}

fn count(alloc: Global, stacks: &[WalkedStack], what: Called) -> Result<u64, OutOfMemory> {
    let mut n = 0u64;
    for stack in stacks {
        let journal = stack.journal();
        let turns = journal.turns();
        for m in modules_of(alloc, journal.head(), turns)? {
            n = n.saturating_add(served(alloc, turns, m, what)?);
        }
    }
    Ok(n)
}

fn count_logged(alloc: Global, stacks: &[WalkedStack]) -> Result<u64, OutOfMemory> {
    let mut n = 0u64;
    for stack in stacks {
        let journal = stack.journal();
        let turns = journal.turns();
        for m in modules_of(alloc, journal.head(), turns)? {
            n = n.saturating_add(log_of(alloc, turns, m)?.len() as u64);
        }
    }
    Ok(n)
}

fn counts_of(alloc: Global, stacks: &[WalkedStack]) -> Result<Counts, OutOfMemory> {
    Ok(Counts {
        send: count(alloc, stacks, Called::Send)?,
        send_complete: count(alloc, stacks, Called::SendComplete)?,
        receive: count(alloc, stacks, Called::Receive)?,
        receive_lent: count(alloc, stacks, Called::ReceiveLent)?,
        returned: count(alloc, stacks, Called::Returned)?,
        oid: count(alloc, stacks, Called::Oid)?,
        oid_complete: count(alloc, stacks, Called::OidComplete)?,
        status: count(alloc, stacks, Called::Status)?,
        logged: count_logged(alloc, stacks)?,
    })
}

/// What the journals of stacks answer.
pub fn promised_by(alloc: Global, stacks: &[WalkedStack]) -> Result<Promised, OutOfMemory> {
    Ok(Promised {
        kept: kept_by(alloc, stacks)?,
        counts: counts_of(alloc, stacks)?,
    })
}

fn word(holds: bool) -> &'static str {
    if holds { "ok" } else { "not" }
}

/// Tells what the journals of a run answer, in one line.
pub fn tell(rt: &HostRuntime, name: &str, promised: Promised) -> io::Result<()> {
    let Promised { kept, counts } = promised;
    let fates = word(kept.fates);
    let configuration = word(kept.configuration);
    let requests = word(kept.requests);
    let links = word(kept.links);
    print!(rt;
        "{name} fates {fates} configuration {configuration} requests {requests} links {links}"
    )?;
    let Counts {
        send,
        send_complete,
        receive,
        receive_lent,
        returned,
        oid,
        oid_complete,
        status,
        logged,
    } = counts;
    print!(rt; " calls {send} {send_complete} {receive} {receive_lent} {returned}")?;
    println!(rt; " {oid} {oid_complete} {status} logged {logged}")
}
