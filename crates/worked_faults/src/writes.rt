//! Sinks of which one write fails, and sinks that are too small.
use crate::compare::{ROOM, line_against};
use ndis_base::OutOfMemory;
use outside_io::MemorySink;
use run_tools::{ALL_DRIVERS, Status, replay};
use std::alloc::Global;

/// No report here takes so many writes.
const MOST_WRITES: u64 = 100;

/// Runs a script into a sink of which one write fails.
fn run_with_fault(
    alloc: Global,
    script: &[u8],
    write: u64,
) -> Result<(Status, MemorySink), OutOfMemory> {
    let mut sink = MemorySink::make(alloc, ROOM, Vec::from_slice(alloc, &[write])?)?;
    let status = replay(alloc, ALL_DRIVERS, script, &mut sink)?;
    Ok((status, sink))
}

/// How many writes a report takes, where a fault at each leaves a front of the report, each longer
/// than the one before; nothing where a fault leaves something else.
fn count_writes(alloc: Global, script: &[u8], report: &[u8]) -> Result<Option<u64>, OutOfMemory> {
    let mut before = 0;
    for write in 1..MOST_WRITES {
        let (status, sink) = run_with_fault(alloc, script, write)?;
        let written = sink.bytes();
        if status == Status::Done && written == report {
            return Ok(Some(write - 1));
        }
        let is_longer = write == 1 || before < written.len();
        if status != Status::WriteFault || !is_longer || !report.starts_with(written) {
            return Ok(None);
        }
        before = written.len();
    }
    Ok(None)
}

/// The line on faults at each of the writes.
fn line_of_faults(
    alloc: Global,
    name: &str,
    script: &[u8],
    report: &[u8],
) -> Result<String, OutOfMemory> {
    let bytes = report.len();
    match count_writes(alloc, script, report)? {
        Some(writes) => Ok(format!(in alloc;
            "{name}, {bytes} bytes, {writes} times written: a fault at each leaves what was written before\n"
        )?),
        None => Ok(format!(in alloc; "{name}: a fault leaves something else\n")?),
    }
}

/// What is written where nothing fails.
fn report_of(alloc: Global, script: &[u8]) -> Result<Vec<u8>, OutOfMemory> {
    let mut sink = MemorySink::make(alloc, ROOM, Vec::new(alloc))?;
    replay(alloc, ALL_DRIVERS, script, &mut sink)?;
    Ok(Vec::from_slice(alloc, sink.bytes())?)
}

/// The line on a sink of this room.
fn line_of_room(
    alloc: Global,
    script: &[u8],
    report: &[u8],
    room: usize,
) -> Result<String, OutOfMemory> {
    let mut sink = MemorySink::make(alloc, room, Vec::new(alloc))?;
    let status = replay(alloc, ALL_DRIVERS, script, &mut sink)?;
    let title = format!(in alloc; "room for {room} bytes")?;
    line_against(alloc, title.as_str(), status, &sink, report)
}

/// Faults at each write of a short and of a long report, and sinks with room for nothing, for half of
/// the short report, for all but a byte, and for just all.
pub fn lines(
    alloc: Global,
    script: &[u8],
    report: &[u8],
    long: &[u8],
) -> Result<String, OutOfMemory> {
    let mut lines = line_of_faults(alloc, "short report", script, report)?;
    let whole = report_of(alloc, long)?;
    lines.push_str(line_of_faults(alloc, "long report", long, &whole)?.as_str())?;
    let length = report.len();
    for room in [0, length / 2, length.saturating_sub(1), length] {
        let line = line_of_room(alloc, script, report, room)?;
        lines.push_str(line.as_str())?;
    }
    Ok(lines)
}
