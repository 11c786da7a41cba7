//! Walks recorded scripts by the rules of the stack alone, and compares what comes out with their recorded
//! reports. Of some of the journals it asks what is promised of every sound one, and whether they follow
//! their script. The file `names` lists the runs, one in a line, with the word `order` where the run has an
//! order of lanes, and the words `promised` and `followed` where its journals are asked that too.
#![tactic(auto)]

mod follows;
mod listed;
mod promises;
mod walks;

use crate::follows::{Followed, followed_by};
use crate::listed::{Listed, listed_in};
use crate::promises::{Promised, promised_by};
use crate::walks::{Fault, report_of, same_in_front, walked};
use script_file::read_script;
use std::alloc::Global;
use std::{fs, io};

/// What came out of a run: from which byte on its report differs, and what was asked of its journals.
#[derive(Drop)]
struct Outcome {
    differs: Option<usize>,
    promised: Option<Promised>,
    followed: Option<Followed>,
}

fn outcome_of(
    alloc: Global,
    run: &Listed<'_>,
    script: &str,
    order: &str,
    report: &str,
) -> Result<Outcome, Fault> {
    let script = read_script(alloc, script.as_bytes())?;
    let stacks = walked(alloc, &script, order)?;
    let text = report_of(alloc, &stacks)?;
    Ok(Outcome {
        differs: if text.as_slice() == report.as_bytes() {
            None
        } else {
            Some(same_in_front(text.as_slice(), report.as_bytes()))
        },
        promised: if run.promised {
            Some(promised_by(alloc, &stacks)?)
        } else {
            None
        },
        followed: if run.followed {
            Some(followed_by(alloc, &script, &stacks)?)
        } else {
            None
        },
    })
}

fn tell(rt: &HostRuntime, name: &str, outcome: &Outcome) -> io::Result<()> {
    match outcome.differs {
        None => println!(rt; "{name} ok")?,
        Some(at) => println!(rt; "{name} differs from byte {at} on")?,
    }
    if let Some(promised) = outcome.promised {
        promises::tell(rt, name, promised)?;
    }
    if let Some(followed) = outcome.followed {
        follows::tell(rt, name, followed)?;
    }
    Ok(())
}

fn try_run(rt: &HostRuntime, run: &Listed<'_>) -> io::Result<()> {
    let alloc = rt.alloc();
    let name = run.name;
    let script = fs::read_to_string(rt, format!(in alloc; "{name}.script.json")?.as_str())?;
    let report = fs::read_to_string(rt, format!(in alloc; "{name}.report")?.as_str())?;
    let order = if run.ordered {
        fs::read_to_string(rt, format!(in alloc; "{name}.order")?.as_str())?
    } else {
        String::new(alloc)
    };
    match outcome_of(alloc, run, script.as_str(), order.as_str(), report.as_str()) {
        Err(fault) => println!(rt; "{name} {fault:?}"),
        Ok(outcome) => tell(rt, name, &outcome),
    }
}

fn main(rt: HostRuntime) -> io::Result<()> {
    let names = fs::read_to_string(&rt, "names")?;
    for line in names.as_str().lines() {
        if let Some(run) = listed_in(line) {
            try_run(&rt, &run)?;
        }
    }
    Ok(())
}
