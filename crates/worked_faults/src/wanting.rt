//! Too few drivers.
use crate::compare::{line_of, wide_sink};
use ndis_base::OutOfMemory;
use outside_io::MemorySource;
use run_tools::{ALL_DRIVERS, Drivers, replay, run_without_parts};
use std::alloc::Global;

/// The line on no parts at all.
fn line_without_parts(alloc: Global, script: &[u8]) -> Result<String, OutOfMemory> {
    let mut source = MemorySource::make(Vec::from_slice(alloc, script)?, Vec::new(alloc));
    let mut sink = wide_sink(alloc)?;
    let status = run_without_parts(alloc, &["replay"], &mut source, &mut sink)?;
    line_of(alloc, "no parts", status, &sink)
}

/// The line on a script over these drivers.
fn line_over(
    alloc: Global,
    name: &str,
    miniports: usize,
    protocols: usize,
    script: &[u8],
) -> Result<String, OutOfMemory> {
    let drivers = Drivers {
        miniports,
        protocols,
        filters: ALL_DRIVERS.filters,
    };
    let mut sink = wide_sink(alloc)?;
    let status = replay(alloc, drivers, script, &mut sink)?;
    line_of(alloc, name, status, &sink)
}

/// No parts, no miniport, no protocol, and one protocol for two bindings; then just enough for both
/// scripts.
pub fn lines(alloc: Global, script: &[u8], wide: &[u8]) -> Result<String, OutOfMemory> {
    let mut lines = line_without_parts(alloc, script)?;
    lines.push_str(line_over(alloc, "no miniport", 0, 8, script)?.as_str())?;
    lines.push_str(line_over(alloc, "no protocol", 1, 0, script)?.as_str())?;
    lines.push_str(line_over(alloc, "one protocol for two bindings", 1, 1, wide)?.as_str())?;
    lines.push_str(line_over(alloc, "one protocol for one binding", 1, 1, script)?.as_str())?;
    lines.push_str(line_over(alloc, "two protocols for two bindings", 1, 2, wide)?.as_str())?;
    Ok(lines)
}
