//! Runs recorded scripts over a source and a sink in memory, and compares what is written with their
//! recorded reports. The file `names` lists the runs, one in a line, each with the order of its lanes if
//! it has one.
#![tactic(auto)]

use ndis_base::OutOfMemory;
use outside_io::{MemorySink, MemorySource};
use run_tools::{ALL_DRIVERS, Status, replay, replay_in_order, replay_twice, run_without_parts};
use std::alloc::Global;
use std::{fs, io};

/// The bytes that a report has at most.
const ROOM: usize = 1 << 20;

/// How many bytes are the same from the front on.
fn same_in_front(a: &[u8], b: &[u8]) -> usize {
    for (i, x) in a.iter().enumerate() {
        if b.len() <= i || b[i] != *x {
            return i;
        }
    }
    a.len()
}

/// Replays a script, in the order of lanes that is given.
fn run(
    alloc: Global,
    script: &[u8],
    order: Option<&str>,
    sink: &mut MemorySink,
) -> Result<Status, OutOfMemory> {
    match order {
        Some(order) => replay_in_order(alloc, ALL_DRIVERS, script, order, sink),
        None => replay(alloc, ALL_DRIVERS, script, sink),
    }
}

fn compare(rt: &HostRuntime, name: &str, order: Option<&str>) -> io::Result<()> {
    let alloc = rt.alloc();
    let script = fs::read(rt, format!(in alloc; "{name}.script.json")?.as_str())?;
    let report = fs::read(rt, format!(in alloc; "{name}.report")?.as_str())?;
    let Ok(mut sink) = MemorySink::make(alloc, ROOM, Vec::new(alloc)) else {
        return println!(rt; "{name} out of memory");
    };
    match run(alloc, script.as_slice(), order, &mut sink) {
        Ok(Status::Done) => {
            if sink.bytes() == report.as_slice() {
                println!(rt; "{name} ok")
            } else {
                let at = same_in_front(sink.bytes(), report.as_slice());
                println!(rt; "{name} differs from byte {at} on")
            }
        }
        Ok(status) => println!(rt; "{name} {status:?}"),
        Err(OutOfMemory) => println!(rt; "{name} out of memory"),
    }
}

fn tell(
    rt: &HostRuntime,
    name: &str,
    status: Result<Status, OutOfMemory>,
    sink: &MemorySink,
) -> io::Result<()> {
    let written = sink.bytes().len();
    match status {
        Ok(status) => println!(rt; "{name} {status:?}, {written} bytes written"),
        Err(OutOfMemory) => println!(rt; "{name} out of memory"),
    }
}

/// Runs that end before anything is run: no drivers, and no text.
fn tell_of_nothing(rt: &HostRuntime) -> io::Result<()> {
    let alloc = rt.alloc();
    let Ok(mut sink) = MemorySink::make(alloc, ROOM, Vec::new(alloc)) else {
        return println!(rt; "nothing out of memory");
    };
    let script = fs::read(rt, "sends-1.script.json")?;
    let mut source = MemorySource::make(script, Vec::new(alloc));
    let status = run_without_parts(alloc, &["replay"], &mut source, &mut sink);
    tell(rt, "no parts", status, &sink)?;
    let status = replay(alloc, ALL_DRIVERS, &[], &mut sink);
    tell(rt, "no text", status, &sink)
}

/// Replays one script twice over the same drivers.
fn compare_both(rt: &HostRuntime) -> io::Result<()> {
    let alloc = rt.alloc();
    let script = fs::read(rt, "pools-2.script.json")?;
    let report = fs::read(rt, "pools-2.report")?;
    let Ok(mut sink) = MemorySink::make(alloc, ROOM, Vec::new(alloc)) else {
        return println!(rt; "twice out of memory");
    };
    let status = replay_twice(alloc, script.as_slice(), &mut sink);
    let first = same_in_front(report.as_slice(), sink.bytes());
    let half = report.len().min(sink.bytes().len());
    let second = same_in_front(report.as_slice(), &sink.bytes()[half..]);
    let each = report.len();
    println!(rt; "twice over the same drivers: {first} and {second} of {each} bytes are the same")?;
    tell(rt, "twice", status, &sink)
}

fn main(rt: HostRuntime) -> io::Result<()> {
    let names = fs::read_to_string(&rt, "names")?;
    for line in names.as_str().lines() {
        match line.split_once(' ') {
            Some((name, order)) => compare(&rt, name, Some(order))?,
            None => compare(&rt, line, None)?,
        }
    }
    compare_both(&rt)?;
    tell_of_nothing(&rt)
}
