//! Runs one recorded script where something fails or is wanting: reads, writes, bytes of the script,
//! drivers and words. It prints how the calls end, and how what is written compares with the recorded
//! report.
#![tactic(auto)]

mod compare;
mod cuts;
mod reads;
mod wanting;
mod words;
mod writes;

use ndis_base::OutOfMemory;
use std::{fs, io};

/// Prints lines, or that there was no memory for them.
fn tell(rt: &HostRuntime, lines: Result<String, OutOfMemory>) -> io::Result<()> {
    match lines {
        Ok(lines) => print!(rt; "{lines}"),
        Err(OutOfMemory) => println!(rt; "out of memory"),
    }
}

fn main(rt: HostRuntime) -> io::Result<()> {
    let alloc = rt.alloc();
    let script = fs::read(&rt, "first-path-1.script.json")?;
    let report = fs::read(&rt, "first-path-1.report")?;
    let long = fs::read(&rt, "twenty-sends.script.json")?;
    let wide = fs::read(&rt, "two-bindings.script.json")?;
    tell(&rt, reads::lines(alloc, &script, &report))?;
    tell(&rt, writes::lines(alloc, &script, &report, &long))?;
    tell(&rt, cuts::lines(alloc, &script))?;
    tell(&rt, wanting::lines(alloc, &script, &wide))?;
    tell(&rt, words::lines(alloc, &script))
}
