//! Scripts, each from its file, as they are written.
use anyhow::Result;
use script_file::{read_script, write_script};
use std::alloc::Global;
use std::fs;

/// The scripts' files.
const FILES: [&str; 2] = ["every-call.script", "two-stacks.script"];

fn text_of(alloc: Global, bytes: &[u8]) -> Option<Vec<u8>> {
    let script = read_script(alloc, bytes).ok()?;
    write_script(alloc, &script).ok()
}

/// Prints each script as it is written.
pub fn tell_texts(rt: &HostRuntime) -> Result<()> {
    let alloc = rt.alloc();
    for file in FILES {
        let bytes = fs::read(rt, file)?;
        match text_of(alloc, &bytes) {
            Some(text) => match std::str::from_utf8(&text) {
                Ok(text) => println!(rt; "{text}")?,
                Err(_) => println!(rt; "no text")?,
            },
            None => println!(rt; "no script")?,
        }
    }
    Ok(())
}
