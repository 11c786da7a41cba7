//! Scripts that differ in one number, at both ends of its range and one past each, and scripts with
//! frames and texts of several lengths, and what each reading answers.
use crate::table::{LIMITS, Limit, SEND};
use script_file::{ScriptFault, read_script};
use std::alloc::{AllocError, Global};

// What JSON readers may differ in: numbers that are held as floats, a number that no float holds, and
// half of a character.
const EDGES: [&str; 6] = [
    "-0",
    "1.0",
    "1e0",
    "18446744073709551616",
    "1e999",
    "\"\\ud800\"",
];

fn name_of_answer(alloc: Global, text: &str) -> std::result::Result<String, AllocError> {
    match read_script(alloc, text.as_bytes()) {
        Ok(_) => format!(in alloc; "fine"),
        Err(ScriptFault::Bad { cause, .. }) => format!(in alloc; "{cause}"),
        Err(fault) => format!(in alloc; "{fault}"),
    }
}

fn answer_at(alloc: Global, limit: &Limit, number: i64) -> std::result::Result<String, AllocError> {
    let before = limit.before;
    let after = limit.after;
    let text = format!(in alloc; "{before}{number}{after}")?;
    name_of_answer(alloc, text.as_str())
}

fn line_of(alloc: Global, limit: &Limit) -> std::result::Result<String, AllocError> {
    let name = limit.name;
    let below = answer_at(alloc, limit, limit.low.saturating_sub(1))?;
    let low = answer_at(alloc, limit, limit.low)?;
    let high = answer_at(alloc, limit, limit.high)?;
    let above = answer_at(alloc, limit, limit.high.saturating_add(1))?;
    format!(in alloc; "{name}: {below}, {low}, {high}, {above}")
}

// A script that sends one frame of so many bytes.
fn text_of_frame(alloc: Global, bytes: usize) -> std::result::Result<String, AllocError> {
    let mut digits = String::new(alloc);
    for _ in 0..bytes {
        digits.push_str("5a")?;
    }
    let before = SEND;
    format!(in alloc; "{before}\"cancel\":1,\"frames\":[\"{digits}\"]}}]}}")
}

fn frame_answer(alloc: Global, bytes: usize) -> std::result::Result<String, AllocError> {
    let text = text_of_frame(alloc, bytes)?;
    name_of_answer(alloc, text.as_str())
}

// A script with spaces behind it, of so many bytes in all.
fn length_answer(alloc: Global, bytes: usize) -> std::result::Result<String, AllocError> {
    let mut text = text_of_frame(alloc, 14)?;
    for _ in text.len()..bytes {
        text.push_str(" ")?;
    }
    name_of_answer(alloc, text.as_str())
}

// A script with this in place of its version.
fn edge_answer(alloc: Global, edge: &str) -> std::result::Result<String, AllocError> {
    let before = LIMITS[0].before;
    let after = LIMITS[0].after;
    let text = format!(in alloc; "{before}{edge}{after}")?;
    name_of_answer(alloc, text.as_str())
}

// A script with this in front of it.
fn answer_behind(alloc: Global, front: &str) -> std::result::Result<String, AllocError> {
    let script = text_of_frame(alloc, 14)?;
    let text = format!(in alloc; "{front}{script}")?;
    name_of_answer(alloc, text.as_str())
}

// A script without its last byte.
fn cut_answer(alloc: Global) -> std::result::Result<String, AllocError> {
    let mut text = text_of_frame(alloc, 14)?;
    if text.pop().is_none() {
        return format!(in alloc; "no text");
    }
    name_of_answer(alloc, text.as_str())
}

/// Prints what each reading answers.
pub fn tell_limits(rt: &HostRuntime) -> anyhow::Result<()> {
    let alloc = rt.alloc();
    for limit in &LIMITS {
        let line = line_of(alloc, limit)?;
        println!(rt; "{line}")?;
    }
    for bytes in [13usize, 14, 1518, 1519] {
        let answer = frame_answer(alloc, bytes)?;
        println!(rt; "frame of {bytes} bytes: {answer}")?;
    }
    for bytes in [4194304usize, 4194305] {
        let answer = length_answer(alloc, bytes)?;
        println!(rt; "text of {bytes} bytes: {answer}")?;
    }
    let answer = cut_answer(alloc)?;
    println!(rt; "text without its last byte: {answer}")?;
    let answer = name_of_answer(alloc, "")?;
    println!(rt; "no text: {answer}")?;
    for edge in EDGES {
        let answer = edge_answer(alloc, edge)?;
        println!(rt; "version {edge}: {answer}")?;
    }
    let answer = answer_behind(alloc, "\u{feff}")?;
    println!(rt; "behind a byte order mark: {answer}")?;
    Ok(())
}
