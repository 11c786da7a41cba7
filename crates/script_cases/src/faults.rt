//! Faulty scripts, each from its file, and the fault of each.
use anyhow::Result;
use script_file::read_script;
use std::alloc::{AllocError, Global};
use std::fs;

/// How many faulty scripts there are, from 1 on.
const SCRIPTS: usize = 96;

fn line_of(alloc: Global, bytes: &[u8]) -> std::result::Result<String, AllocError> {
    match read_script(alloc, bytes) {
        Ok(_) => format!(in alloc; "no fault"),
        Err(fault) => format!(in alloc; "{fault}"),
    }
}

/// Prints the fault of each faulty script.
pub fn tell_faults(rt: &HostRuntime) -> Result<()> {
    let alloc = rt.alloc();
    for script in 0..SCRIPTS {
        let number = script + 1;
        let path = format!(in alloc; "fault-{number}.script")?;
        let bytes = fs::read(rt, path.as_str())?;
        let line = line_of(alloc, &bytes)?;
        println!(rt; "{line}")?;
    }
    Ok(())
}
