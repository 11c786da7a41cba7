//! Reports of flat journals.
ghost use Rattle.std.specs.Prelude.{◌≡◌, ◌≤◌, ◌++◌, OnErr, OnOk, flat_map};
ghost use Rattle.std.specs.List.{concat};
ghost use Rattle.outside_io.specs.Edges.{Rose, after, AddsPrefix};
ghost use Rattle.run_report.specs.Report.{Wrote, refused_line};
ghost use Rattle.flat_text.specs.Text.{text};
ghost use Rattle.flat_report.specs.Report.{report};

use flat_journal::FlatJournal;
use flat_text::FlatLines;
use journal_words::page::Page;
use outside_io::{Sink, write_whole};
use run_report::refused::sort_refused;
use run_report::report::{PAGE, write_full, write_refusals};
use run_report::{Refused, ReportFault};
use std::alloc::Global;

/// Adds the lines that are left to the page, and writes it where it is full.
fn write_lines<K: Sink>(
    sink: &mut K,
    page: &mut Page,
    lines: &mut FlatLines<'_>,
) -> Result<(), ReportFault>
    ensures whole { OnOk result (Wrote (K.holds sink.old) (K.holds sink.new) page.new (page.old ++ concat lines.old)) }
    ensures prefix { OnErr result (AddsPrefix (K.holds sink.old) (K.holds sink.new) (page.old ++ concat lines.old)) }
    ensures failed { result ≡ Err ReportFault.Failed → Rose (K.faults sink.old) (K.faults sink.new) }
    ensures count { K.faults sink.old ≤ K.faults sink.new }
{
    while lines.push_next(page)? {
        write_full(sink, page)?;
    }
    Ok(())
}

/// Adds the text of a journal.
fn write_journal<K: Sink>(
    sink: &mut K,
    page: &mut Page,
    journal: &FlatJournal,
) -> Result<(), ReportFault>
    ensures whole { OnOk result (Wrote (K.holds sink.old) (K.holds sink.new) page.new (page.old ++ text journal.now)) }
    ensures prefix { OnErr result (AddsPrefix (K.holds sink.old) (K.holds sink.new) (page.old ++ text journal.now)) }
    ensures failed { result ≡ Err ReportFault.Failed → Rose (K.faults sink.old) (K.faults sink.new) }
    ensures count { K.faults sink.old ≤ K.faults sink.new }
{
    let mut lines = FlatLines::of(journal);
    write_lines(sink, page, &mut lines)
}

fn write_journals<K: Sink>(
    sink: &mut K,
    page: &mut Page,
    journals: &[FlatJournal],
) -> Result<(), ReportFault>
    ensures whole { OnOk result (Wrote (K.holds sink.old) (K.holds sink.new) page.new (page.old ++ flat_map text journals.now)) }
    ensures prefix { OnErr result (AddsPrefix (K.holds sink.old) (K.holds sink.new) (page.old ++ flat_map text journals.now)) }
    ensures failed { result ≡ Err ReportFault.Failed → Rose (K.faults sink.old) (K.faults sink.new) }
    ensures count { K.faults sink.old ≤ K.faults sink.new }
{
    for journal in journals {
        write_journal(sink, page, journal)?;
    }
    Ok(())
}

/// Adds the journal of each stack, and then the refused calls.
fn write_parts<K: Sink>(
    sink: &mut K,
    page: &mut Page,
    journals: &[FlatJournal],
    refused: &[Refused],
) -> Result<(), ReportFault>
    ensures whole { OnOk result (Wrote (K.holds sink.old) (K.holds sink.new) page.new (page.old ++ (flat_map text journals.now ++ flat_map refused_line refused.now))) }
    ensures prefix { OnErr result (AddsPrefix (K.holds sink.old) (K.holds sink.new) (page.old ++ (flat_map text journals.now ++ flat_map refused_line refused.now))) }
    ensures failed { result ≡ Err ReportFault.Failed → Rose (K.faults sink.old) (K.faults sink.new) }
    ensures count { K.faults sink.old ≤ K.faults sink.new }
{
    write_journals(sink, page, journals)?;
    write_refusals(sink, page, refused)
}

/// Writes the journal of each stack, lowest first, and then a line for each refused call, sorted by
/// lane and then by call. The lines are gathered on one page, which is written where it is full and
/// at the end.
pub fn write_flat_report<K: Sink>(
    alloc: Global,
    sink: &mut K,
    journals: &[FlatJournal],
    refused: &[Refused],
) -> Result<(), ReportFault>
    ensures whole { OnOk result (K.holds sink.new ≡ after (K.holds sink.old) (report journals.now refused.now)) }
    ensures prefix { OnErr result (AddsPrefix (K.holds sink.old) (K.holds sink.new) (report journals.now refused.now)) }
    ensures failed { result ≡ Err ReportFault.Failed → Rose (K.faults sink.old) (K.faults sink.new) }
    ensures count { K.faults sink.old ≤ K.faults sink.new }
{
    let sorted = sort_refused(alloc, refused)?;
    let mut page = Page::with_room(alloc, PAGE)?;
    write_parts(sink, &mut page, journals, &sorted)?;
    write_whole(sink, page.bytes())?;
    Ok(())
}
