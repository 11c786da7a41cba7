//! The words of rows.
ghost use Rattle.std.specs.Prelude.{◌≡◌, ◌∷◌, OnOk};
ghost use Rattle.frame_arena.specs.Spans.{frames_at, SpanWithin};
ghost use Rattle.flat_journal.specs.Shown.{row_of};
ghost use Rattle.flat_journal.specs.Within.{RowWithin};
ghost use Rattle.ndis_base.specs.Names.{direction_text};
ghost use Rattle.journal_types.specs.declared.Row.TheVariants as row;
ghost use Rattle.journal_words.specs.Words.{spaced, optional_text};
ghost use Rattle.journal_rows.specs.Rows.{issued_words, out_words, row_words};

use crate::frames::push_frames;
use flat_journal::{FlatJournal, FlatRow};
use frame_arena::FrameSpan;
use journal_rows::rows::{
    name_of_how, name_of_way, push_config_row, push_give, push_home, push_keep, push_list,
    push_new_list, push_oid_done, push_oid_give, push_oid_issue, push_passed, push_phase_row,
    push_seen, push_status, push_turn_back,
};
use journal_types::{How, OutWay, Way};
use journal_words::page::Page;
use ndis_base::{CrossNo, Direction, ListNo, Origin, OutOfMemory, name_of_direction};

fn push_issued(
    page: &mut Page,
    journal: &FlatJournal,
    origin: Origin,
    frames: FrameSpan,
) -> Result<(), OutOfMemory>
    requires { SpanWithin journal.now.payloads.frames frames }
    ensures { OnOk result (page.new ≡ spaced page.old (issued_words origin (frames_at journal.now.payloads.frames frames))) }
{
    match origin {
        Origin::Root => page.text(" -")?,
        Origin::Clone(list) => push_list(page, " clone ", list)?,
        Origin::Copy(list) => push_list(page, " copy ", list)?,
    }
    push_frames(page, journal, frames)
}

/// Where an issued list goes, and its frames.
fn push_issue(
    page: &mut Page,
    journal: &FlatJournal,
    direction: Direction,
    cancel: Option<u32>,
    origin: Origin,
    frames: FrameSpan,
) -> Result<(), OutOfMemory>
    requires { SpanWithin journal.now.payloads.frames frames }
    ensures { OnOk result (page.new ≡ spaced page.old (direction_text direction ∷ optional_text cancel ∷ issued_words origin (frames_at journal.now.payloads.frames frames))) }
{
    page.word(name_of_direction(direction))?;
    page.optional_number(cancel)?;
    push_issued(page, journal, origin, frames)
}

fn push_wire(
    page: &mut Page,
    journal: &FlatJournal,
    list: ListNo,
    frames: FrameSpan,
) -> Result<(), OutOfMemory>
    requires { SpanWithin journal.now.payloads.frames frames }
    ensures { OnOk result (page.new ≡ spaced page.old (row_words (row.Wire list (frames_at journal.now.payloads.frames frames)))) }
{
    push_list(page, " wire ", list)?;
    push_frames(page, journal, frames)
}

fn push_deliver(
    page: &mut Page,
    journal: &FlatJournal,
    list: ListNo,
    binding: u32,
    how: How,
    frames: FrameSpan,
) -> Result<(), OutOfMemory>
    requires { SpanWithin journal.now.payloads.frames frames }
    ensures { OnOk result (page.new ≡ spaced page.old (row_words (row.Deliver list binding how (frames_at journal.now.payloads.frames frames)))) }
{
    push_list(page, " deliver ", list)?;
    page.binding(binding)?;
    page.word(name_of_how(how))?;
    push_frames(page, journal, frames)
}

fn push_out(
    page: &mut Page,
    journal: &FlatJournal,
    way: OutWay,
    frames: FrameSpan,
) -> Result<(), OutOfMemory>
    requires { SpanWithin journal.now.payloads.frames frames }
    ensures { OnOk result (page.new ≡ spaced page.old (out_words way (frames_at journal.now.payloads.frames frames))) }
{
    match way {
        OutWay::Down(list) => push_list(page, " down ", list)?,
        OutWay::Up => {
            page.text(" up")?;
            page.text(" -")?;
        }
    }
    push_frames(page, journal, frames)
}

fn push_cross_out(
    page: &mut Page,
    journal: &FlatJournal,
    message: CrossNo,
    way: OutWay,
    frames: FrameSpan,
) -> Result<(), OutOfMemory>
    requires { SpanWithin journal.now.payloads.frames frames }
    ensures { OnOk result (page.new ≡ spaced page.old (row_words (row.CrossOut message way (frames_at journal.now.payloads.frames frames)))) }
{
    page.text(" crossout")?;
    page.number(message.0)?;
    push_out(page, journal, way, frames)
}

fn push_cross_in(
    page: &mut Page,
    journal: &FlatJournal,
    stack: u8,
    message: CrossNo,
    way: Way,
    frames: FrameSpan,
) -> Result<(), OutOfMemory>
    requires { SpanWithin journal.now.payloads.frames frames }
    ensures { OnOk result (page.new ≡ spaced page.old (row_words (row.CrossIn stack message way (frames_at journal.now.payloads.frames frames)))) }
{
    page.text(" crossin")?;
    page.number(u64::from(stack))?;
    page.number(message.0)?;
    page.word(name_of_way(way))?;
    push_frames(page, journal, frames)
}

/// Adds the words of a row.
pub fn push_row(page: &mut Page, journal: &FlatJournal, row: &FlatRow) -> Result<(), OutOfMemory>
    requires { RowWithin journal.now.payloads row.now }
    ensures { OnOk result (page.new ≡ spaced page.old (row_words (row_of journal.now.payloads row.now))) }
{
    match row {
        FlatRow::Issue {
            list,
            owner,
            config,
            direction,
            cancel,
            origin,
            frames,
        } => {
            push_new_list(page, *list, *owner, *config)?;
            push_issue(page, journal, *direction, *cancel, *origin, *frames)
        }
        FlatRow::Give {
            list,
            module,
            handler,
        } => push_give(page, *list, *module, *handler),
        FlatRow::Pass { list, way, to } => push_passed(page, *list, *way, *to),
        FlatRow::Keep { list, module } => push_keep(page, *list, *module),
        FlatRow::TurnBack {
            list,
            module,
            status,
        } => push_turn_back(page, *list, *module, *status),
        FlatRow::Home {
            list,
            owner,
            status,
        } => push_home(page, *list, *owner, *status),
        FlatRow::Wire { list, frames } => push_wire(page, journal, *list, *frames),
        FlatRow::Deliver {
            list,
            binding,
            how,
            frames,
        } => push_deliver(page, journal, *list, *binding, *how, *frames),
        FlatRow::Phase { of } => push_phase_row(page, *of),
        FlatRow::Config { config, filters } => {
            push_config_row(page, *config, journal.filters(*filters))
        }
        FlatRow::OidIssue {
            request,
            parent,
            binding,
            kind,
            code,
            value,
        } => push_oid_issue(
            page,
            *request,
            *parent,
            *binding,
            *kind,
            *code,
            journal.value(*value),
        ),
        FlatRow::OidGive { request, module } => push_oid_give(page, *request, *module),
        FlatRow::OidDone {
            request,
            status,
            value,
        } => push_oid_done(page, *request, *status, journal.value(*value)),
        FlatRow::Status { number, name, to } => push_status(page, *number, *name, *to),
        FlatRow::Seen { number, module } => push_seen(page, *number, *module),
        FlatRow::CrossOut {
            message,
            way,
            frames,
        } => push_cross_out(page, journal, *message, *way, *frames),
        FlatRow::CrossIn {
            stack,
            message,
            way,
            frames,
        } => push_cross_in(page, journal, *stack, *message, *way, *frames),
    }
}
