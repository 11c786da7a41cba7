//! Reads scripts: faulty ones, whose faults it prints, scripts that differ in one number or in length, and
//! scripts that it prints as they are written.
#![tactic(auto)]

mod faults;
mod limits;
mod table;
mod texts;

use anyhow::Result;

fn main(rt: HostRuntime) -> Result<()> {
    faults::tell_faults(&rt)?;
    limits::tell_limits(&rt)?;
    texts::tell_texts(&rt)
}
