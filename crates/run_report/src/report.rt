//! Reports.
ghost use Rattle.std.specs.Prelude.{◌≡◌, ◌≤◌, ◌++◌, [], OnErr, OnOk, flat_map};
ghost use Rattle.std.specs.List.{concat};
ghost use Rattle.outside_io.specs.Edges.{Rose, after, AddsPrefix};
ghost use Rattle.ndis_journal.specs.Text.{text};
ghost use Rattle.run_report.specs.Report.{Wrote, refused_line, report};

use crate::refused::{Refused, push_refused, sort_refused};
use ndis_base::OutOfMemory;
use ndis_journal::{Journal, Lines, Page};
use outside_io::{Failed, Sink, write_whole};
use std::alloc::Global;
use thiserror::Error;

/// The room of the page, in bytes.
pub const PAGE: usize = 65_536;

/// A page with so many bytes is full. Behind them a line of eight of the longest frames has room.
const FULL: usize = 32_768;

/// Why a report wasn't written whole.
#[derive(Clone, Copy, Debug, PartialEq, Eq, Error)]
pub enum ReportFault {
    /// A write failed.
    #[error("write fault")]
    Failed,
    /// Memory ran out.
    #[error("out of memory")]
    Memory,
}

impl From<Failed> for ReportFault {
    ghost use Rattle.run_report.specs.declared.report.ReportFault.{ReportFault};

    ghost from_gives = { λ _ fault. fault ≡ ReportFault.Failed };

    fn from(_fault: Failed) -> ReportFault {
        ReportFault::Failed
    }
}

impl From<OutOfMemory> for ReportFault {
    ghost use Rattle.run_report.specs.declared.report.ReportFault.{ReportFault};

    ghost from_gives = { λ _ fault. fault ≡ ReportFault.Memory };

    fn from(_fault: OutOfMemory) -> ReportFault {
        ReportFault::Memory
    }
}

/// Writes a page that is full, and empties it.
pub fn write_full<K: Sink>(sink: &mut K, page: &mut Page) -> Result<(), Failed>
    ensures whole { OnOk result (Wrote (K.holds sink.old) (K.holds sink.new) page.new page.old) }
    ensures prefix { OnErr result (AddsPrefix (K.holds sink.old) (K.holds sink.new) page.old) }
    ensures failed { OnErr result (Rose (K.faults sink.old) (K.faults sink.new)) }
    ensures count { K.faults sink.old ≤ K.faults sink.new }
{
    if page.bytes().len() >= FULL {
        write_whole(sink, page.bytes())?;
        page.clear();
    }
    Ok(())
}

/// Adds the lines that are left to the page, and writes it where it is full.
fn write_lines<K: Sink>(
    sink: &mut K,
    page: &mut Page,
    lines: &mut Lines<'_>,
) -> Result<(), ReportFault>
    ensures whole { OnOk result (Wrote (K.holds sink.old) (K.holds sink.new) page.new (page.old ++ concat lines.old)) }
    ensures prefix { OnErr result (AddsPrefix (K.holds sink.old) (K.holds sink.new) (page.old ++ concat lines.old)) }
    ensures failed { result ≡ Err ReportFault.Failed → Rose (K.faults sink.old) (K.faults sink.new) }
    ensures count { K.faults sink.old ≤ K.faults sink.new }
{
    while lines.push_next(page)? {
        write_full(sink, page)?;
    }
    Ok(())
}

/// Adds the text of a journal.
fn write_journal<K: Sink>(
    sink: &mut K,
    page: &mut Page,
    journal: &Journal,
) -> Result<(), ReportFault>
    ensures whole { OnOk result (Wrote (K.holds sink.old) (K.holds sink.new) page.new (page.old ++ text journal.now)) }
    ensures prefix { OnErr result (AddsPrefix (K.holds sink.old) (K.holds sink.new) (page.old ++ text journal.now)) }
    ensures failed { result ≡ Err ReportFault.Failed → Rose (K.faults sink.old) (K.faults sink.new) }
    ensures count { K.faults sink.old ≤ K.faults sink.new }
{
    let mut lines = Lines::of(journal);
    write_lines(sink, page, &mut lines)
}

fn write_journals<K: Sink>(
    sink: &mut K,
    page: &mut Page,
    journals: &[Journal],
) -> Result<(), ReportFault>
    ensures whole { OnOk result (Wrote (K.holds sink.old) (K.holds sink.new) page.new (page.old ++ flat_map text journals.now)) }
    ensures prefix { OnErr result (AddsPrefix (K.holds sink.old) (K.holds sink.new) (page.old ++ flat_map text journals.now)) }
    ensures failed { result ≡ Err ReportFault.Failed → Rose (K.faults sink.old) (K.faults sink.new) }
    ensures count { K.faults sink.old ≤ K.faults sink.new }
{
    for journal in journals {
        write_journal(sink, page, journal)?;
    }
    Ok(())
}

fn write_refusal<K: Sink>(
    sink: &mut K,
    page: &mut Page,
    refused: &Refused,
) -> Result<(), ReportFault>
    ensures whole { OnOk result (Wrote (K.holds sink.old) (K.holds sink.new) page.new (page.old ++ refused_line refused.now)) }
    ensures prefix { OnErr result (AddsPrefix (K.holds sink.old) (K.holds sink.new) (page.old ++ refused_line refused.now)) }
    ensures failed { result ≡ Err ReportFault.Failed → Rose (K.faults sink.old) (K.faults sink.new) }
    ensures count { K.faults sink.old ≤ K.faults sink.new }
{
    push_refused(page, refused)?;
    write_full(sink, page)?;
    Ok(())
}

/// Adds the lines of refused calls to the page, and writes it where it is full.
pub fn write_refusals<K: Sink>(
    sink: &mut K,
    page: &mut Page,
    refused: &[Refused],
) -> Result<(), ReportFault>
    ensures whole { OnOk result (Wrote (K.holds sink.old) (K.holds sink.new) page.new (page.old ++ flat_map refused_line refused.now)) }
    ensures prefix { OnErr result (AddsPrefix (K.holds sink.old) (K.holds sink.new) (page.old ++ flat_map refused_line refused.now)) }
    ensures failed { result ≡ Err ReportFault.Failed → Rose (K.faults sink.old) (K.faults sink.new) }
    ensures count { K.faults sink.old ≤ K.faults sink.new }
{
    for one in refused {
        write_refusal(sink, page, one)?;
    }
    Ok(())
}

/// Adds the journal of each stack, and then the refused calls.
fn write_parts<K: Sink>(
    sink: &mut K,
    page: &mut Page,
    journals: &[Journal],
    refused: &[Refused],
) -> Result<(), ReportFault>
    ensures whole { OnOk result (Wrote (K.holds sink.old) (K.holds sink.new) page.new (page.old ++ (flat_map text journals.now ++ flat_map refused_line refused.now))) }
    ensures prefix { OnErr result (AddsPrefix (K.holds sink.old) (K.holds sink.new) (page.old ++ (flat_map text journals.now ++ flat_map refused_line refused.now))) }
    ensures failed { result ≡ Err ReportFault.Failed → Rose (K.faults sink.old) (K.faults sink.new) }
    ensures count { K.faults sink.old ≤ K.faults sink.new }
{
    write_journals(sink, page, journals)?;
    write_refusals(sink, page, refused)
}

/// Writes the journal of each stack, lowest first, and then a line for each refused call, sorted by
/// lane and then by call. The lines are gathered on one page, which is written where it is full and
/// at the end.
pub fn write_report<K: Sink>(
    alloc: Global,
    sink: &mut K,
    journals: &[Journal],
    refused: &[Refused],
) -> Result<(), ReportFault>
    ensures whole { OnOk result (K.holds sink.new ≡ after (K.holds sink.old) (report journals.now refused.now)) }
    ensures prefix { OnErr result (AddsPrefix (K.holds sink.old) (K.holds sink.new) (report journals.now refused.now)) }
    ensures failed { result ≡ Err ReportFault.Failed → Rose (K.faults sink.old) (K.faults sink.new) }
    ensures count { K.faults sink.old ≤ K.faults sink.new }
{
    let sorted = sort_refused(alloc, refused)?;
    let mut page = Page::with_room(alloc, PAGE)?;
    write_parts(sink, &mut page, journals, &sorted)?;
    write_whole(sink, page.bytes())?;
    Ok(())
}
