//! The script cut after each of its bytes.
use crate::compare::wide_sink;
use ndis_base::OutOfMemory;
use run_tools::{ALL_DRIVERS, Status, replay};
use script_types::{ScriptCause, ScriptPlace};
use std::alloc::Global;

/// How often a script was faulty at this place for this cause.
#[derive(Drop)]
struct Tally {
    place: ScriptPlace,
    cause: ScriptCause,
    times: usize,
}

/// Counts one fault.
fn count(
    tallies: &mut Vec<Tally>,
    place: ScriptPlace,
    cause: ScriptCause,
) -> Result<(), OutOfMemory> {
    for tally in tallies.iter_mut() {
        if tally.place == place && tally.cause == cause {
            tally.times = tally.times.saturating_add(1);
            return Ok(());
        }
    }
    tallies.push(Tally {
        place,
        cause,
        times: 1,
    })?;
    Ok(())
}

/// The lines on the fronts of the script, without the whole.
pub fn lines(alloc: Global, script: &[u8]) -> Result<String, OutOfMemory> {
    let mut lines = String::new(alloc);
    let mut tallies = Vec::new(alloc);
    let mut silent: usize = 0;
    for length in 0..script.len() {
        let mut sink = wide_sink(alloc)?;
        let status = replay(alloc, ALL_DRIVERS, &script[..length], &mut sink)?;
        if sink.bytes().is_empty() {
            silent = silent.saturating_add(1);
        }
        match status {
            Status::BadScript { place, cause } => count(&mut tallies, place, cause)?,
            other => {
                let line = format!(in alloc; "script cut after {length} bytes: {other:?}\n")?;
                lines.push_str(line.as_str())?;
            }
        }
    }
    let line = format!(in alloc;
        "script cut after each byte: {silent} times nothing is written\n"
    )?;
    lines.push_str(line.as_str())?;
    for Tally {
        place,
        cause,
        times,
    } in tallies {
        let line = format!(in alloc;
            "script cut: {times} times BadScript at {place:?} for {cause:?}\n"
        )?;
        lines.push_str(line.as_str())?;
    }
    Ok(lines)
}
