//! How what is written compares with a report.
use ndis_base::OutOfMemory;
use outside_io::MemorySink;
use run_tools::Status;
use std::alloc::Global;

/// The bytes that a report has at most.
pub const ROOM: usize = 1 << 18;

/// A sink that takes everything.
pub fn wide_sink(alloc: Global) -> Result<MemorySink, OutOfMemory> {
    MemorySink::make(alloc, ROOM, Vec::new(alloc))
}

/// A line on how a call ended and how much it wrote.
pub fn line_of(
    alloc: Global,
    name: &str,
    status: Status,
    sink: &MemorySink,
) -> Result<String, OutOfMemory> {
    let bytes = sink.bytes().len();
    Ok(format!(in alloc; "{name}: {status:?}, {bytes} bytes written\n")?)
}

/// What the bytes are of a report.
fn name_of_part(written: &[u8], report: &[u8]) -> &'static str {
    if written.is_empty() {
        "nothing"
    } else if written == report {
        "the whole report"
    } else if report.starts_with(written) {
        "the front of the report"
    } else {
        "no part of the report"
    }
}

/// A line on how a call ended and on what it wrote of a report.
pub fn line_against(
    alloc: Global,
    name: &str,
    status: Status,
    sink: &MemorySink,
    report: &[u8],
) -> Result<String, OutOfMemory> {
    let bytes = sink.bytes().len();
    let part = name_of_part(sink.bytes(), report);
    Ok(format!(in alloc; "{name}: {status:?}, {part} written, {bytes} bytes\n")?)
}
