//! Sources of which one read fails.
use crate::compare::{line_against, wide_sink};
use ndis_base::OutOfMemory;
use outside_io::MemorySource;
use run_tools::{ALL_DRIVERS, Status, run_over};
use std::alloc::Global;

/// More reads than a call makes here.
const READS: u64 = 16;

/// How many spaces are put behind the script, so that it takes several reads.
const SPACES: usize = 10_000;

/// The lines on each read that fails, up to the first that the call doesn't make.
fn lines_of_source(
    alloc: Global,
    name: &str,
    script: &[u8],
    report: &[u8],
) -> Result<String, OutOfMemory> {
    let mut lines = String::new(alloc);
    for read in 1..READS {
        let bytes = Vec::from_slice(alloc, script)?;
        let mut source = MemorySource::make(bytes, Vec::from_slice(alloc, &[read])?);
        let mut sink = wide_sink(alloc)?;
        let status = run_over(alloc, ALL_DRIVERS, &["replay"], &mut source, &mut sink)?;
        let title = format!(in alloc; "{name}, fault at read {read}")?;
        let line = line_against(alloc, title.as_str(), status, &sink, report)?;
        lines.push_str(line.as_str())?;
        if status == Status::Done {
            return Ok(lines);
        }
    }
    Ok(lines)
}

/// The script, and the script with spaces behind it.
pub fn lines(alloc: Global, script: &[u8], report: &[u8]) -> Result<String, OutOfMemory> {
    let mut lines = lines_of_source(alloc, "script", script, report)?;
    let mut longer = Vec::from_slice(alloc, script)?;
    for _ in 0..SPACES {
        longer.push(b' ')?;
    }
    let more = lines_of_source(alloc, "script with spaces", &longer, report)?;
    lines.push_str(more.as_str())?;
    Ok(lines)
}
