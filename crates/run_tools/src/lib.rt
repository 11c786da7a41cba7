//! Whole runs of the top call over sample drivers, from a source and to a sink in memory. Programs that
//! compare what is written stand on it.
#![tactic(auto)]

use book_opening::StackDrivers;
use driver_calls::{FilterDriver, MiniportDriver, ProtocolDriver};
use ndis_base::OutOfMemory;
use outside_io::{MemorySink, MemorySource};
use sample_parts::{call_over, ndis_serial};
pub use sample_parts::{ALL_DRIVERS, Drivers, Status};
use std::alloc::Global;

/// The words as they come from a command line.
pub fn words_of(alloc: Global, texts: &[&str]) -> Result<Vec<String>, OutOfMemory> {
    let mut words = Vec::with_capacity(alloc, texts.len())?;
    for text in texts {
        words.push(String::from_str(alloc, text)?)?;
    }
    Ok(words)
}

/// Makes the drivers, all new, and calls with these words.
pub fn run_over(
    alloc: Global,
    drivers: Drivers,
    texts: &[&str],
    source: &mut MemorySource,
    sink: &mut MemorySink,
) -> Result<Status, OutOfMemory> {
    let words = words_of(alloc, texts)?;
    call_over(alloc, drivers, words.as_slice(), source, None, sink)
}

/// Calls with these words and no parts of a stack.
pub fn run_without_parts(
    alloc: Global,
    texts: &[&str],
    source: &mut MemorySource,
    sink: &mut MemorySink,
) -> Result<Status, OutOfMemory> {
    let mut parts: Vec<
        StackDrivers<Box<dyn MiniportDriver>, Box<dyn ProtocolDriver>, Box<dyn FilterDriver>>,
    > = Vec::new(alloc);
    let words = words_of(alloc, texts)?;
    Ok(ndis_serial(alloc, words.as_slice(), source, sink, &mut parts))
}

/// Replays a script, which is read without a fault.
pub fn replay(
    alloc: Global,
    drivers: Drivers,
    script: &[u8],
    sink: &mut MemorySink,
) -> Result<Status, OutOfMemory> {
    let mut source = MemorySource::make(Vec::from_slice(alloc, script)?, Vec::new(alloc));
    run_over(alloc, drivers, &["replay"], &mut source, sink)
}

/// Replays a script, which is read without a fault, in an order of lanes.
pub fn replay_in_order(
    alloc: Global,
    drivers: Drivers,
    script: &[u8],
    order: &str,
    sink: &mut MemorySink,
) -> Result<Status, OutOfMemory> {
    let mut source = MemorySource::make(Vec::from_slice(alloc, script)?, Vec::new(alloc));
    run_over(
        alloc,
        drivers,
        &["replay", "--order", order],
        &mut source,
        sink,
    )
}

/// Replays a script twice over the same drivers, one report after the other.
pub fn replay_twice(
    alloc: Global,
    script: &[u8],
    sink: &mut MemorySink,
) -> Result<Status, OutOfMemory> {
    let mut source = MemorySource::make(Vec::from_slice(alloc, script)?, Vec::new(alloc));
    let mut further = MemorySource::make(Vec::from_slice(alloc, script)?, Vec::new(alloc));
    let words = words_of(alloc, &["replay"])?;
    call_over(
        alloc,
        ALL_DRIVERS,
        words.as_slice(),
        &mut source,
        Some(&mut further),
        sink,
    )
}
