//! Words that are no form of the command.
use crate::compare::{line_of, wide_sink};
use ndis_base::OutOfMemory;
use outside_io::{MemorySource, read_all};
use run_tools::{ALL_DRIVERS, run_over};
use std::alloc::Global;

fn name_of_rest(is_whole: bool) -> &'static str {
    if is_whole {
        "all of the script"
    } else {
        "not all of the script"
    }
}

/// The lines on these words, and on what is read from the source after the call.
fn lines_of_words(
    alloc: Global,
    name: &str,
    texts: &[&str],
    script: &[u8],
) -> Result<String, OutOfMemory> {
    let mut source = MemorySource::make(Vec::from_slice(alloc, script)?, Vec::new(alloc));
    let mut sink = wide_sink(alloc)?;
    let status = run_over(alloc, ALL_DRIVERS, texts, &mut source, &mut sink)?;
    let mut lines = line_of(alloc, name, status, &sink)?;
    let rest = match read_all(alloc, &mut source, script.len()) {
        Ok(bytes) => name_of_rest(bytes.as_slice() == script),
        Err(_fault) => "nothing",
    };
    let line = format!(in alloc; "{name}: the next reader gets {rest}\n")?;
    lines.push_str(line.as_str())?;
    Ok(lines)
}

/// One word twice, another word, no word, and an empty one.
fn lines_without_order(alloc: Global, script: &[u8]) -> Result<String, OutOfMemory> {
    let mut lines = lines_of_words(alloc, "words replay replay", &["replay", "replay"], script)?;
    let more = lines_of_words(alloc, "word run", &["run"], script)?;
    lines.push_str(more.as_str())?;
    let seed = &["replay", "--seed", "1"];
    let more = lines_of_words(alloc, "words replay --seed 1", seed, script)?;
    lines.push_str(more.as_str())?;
    let more = lines_of_words(alloc, "no word", &[], script)?;
    lines.push_str(more.as_str())?;
    let more = lines_of_words(alloc, "an empty word", &[""], script)?;
    lines.push_str(more.as_str())?;
    Ok(lines)
}

/// Orders that are none, and orders in one word and in two.
fn lines_of_orders(alloc: Global, script: &[u8]) -> Result<String, OutOfMemory> {
    let empty = &["replay", "--order", ""];
    let mut lines = lines_of_words(alloc, "an order without lanes", empty, script)?;
    let ninth = &["replay", "--order", "0,8"];
    let more = lines_of_words(alloc, "an order of a ninth lane", ninth, script)?;
    lines.push_str(more.as_str())?;
    let early = &["replay", "--order=0,"];
    let more = lines_of_words(alloc, "an order that ends early", early, script)?;
    lines.push_str(more.as_str())?;
    let one = &["replay", "--order=7,0"];
    let more = lines_of_words(alloc, "an order in one word", one, script)?;
    lines.push_str(more.as_str())?;
    let two = &["replay", "--order", "0"];
    let more = lines_of_words(alloc, "an order in two words", two, script)?;
    lines.push_str(more.as_str())?;
    Ok(lines)
}

/// How calls with words of these kinds end.
pub fn lines(alloc: Global, script: &[u8]) -> Result<String, OutOfMemory> {
    let mut lines = lines_without_order(alloc, script)?;
    let more = lines_of_orders(alloc, script)?;
    lines.push_str(more.as_str())?;
    Ok(lines)
}
