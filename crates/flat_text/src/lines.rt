//! The lines of a journal, one after the other.
ghost use Rattle.std.specs.Prelude.{◌≡◌, ℕ, ◌+◌, ◌<◌, ◌≤◌, ◌↔◌, ◌++◌, ◌∷◌, [], All, length, take, drop, codes, decimal, IfOk, OnErr, OnOk, IsTrue};
ghost use Rattle.std.specs.List.{concat};
ghost use Rattle.flat_journal.specs.Shown.{event_of, reply_of, row_of};
ghost use Rattle.flat_journal.specs.Within.{EventWithin, RowWithin};
ghost use Rattle.journal_words.specs.Words.{spaced};
ghost use Rattle.journal_events.specs.Events.{who_words, event_words, reply_words};
ghost use Rattle.journal_lines.specs.Text.{count_words, turn_line, row_line, end_line};
ghost use Rattle.flat_text.specs.Text.{lines, turn_shown};

use crate::counts::count_rows;
use flat_journal::{FlatJournal, FlatRow, TurnRef};
use flat_words::events::{push_event, push_reply};
use flat_words::rows::push_row;
use journal_events::events::{push_counted, push_who};
use journal_lines::{push_binding, push_head};
use journal_words::page::Page;
use ndis_base::{OutOfMemory, ProtocolKind};
use std::marker::Model;

fn push_turn_words(
    page: &mut Page,
    journal: &FlatJournal,
    number: usize,
    turn: &TurnRef<'_>,
) -> Result<(), OutOfMemory>
    requires { EventWithin journal.now.payloads turn.now.event }
    ensures { OnOk result (page.new ≡ spaced (spaced (spaced (spaced page.old (decimal number ∷ [])) (who_words turn.now.who)) (event_words (event_of journal.now.payloads turn.now.event))) (codes "=" ∷ reply_words (reply_of journal.now.payloads turn.now.reply))) }
{
    page.number(number as u64)?;
    push_who(page, turn.who)?;
    push_event(page, journal, turn.event)?;
    page.text(" =")?;
    push_reply(page, journal, turn.reply)
}

/// Adds the line of the turn of this number.
fn push_turn(
    page: &mut Page,
    journal: &FlatJournal,
    number: usize,
    turn: &TurnRef<'_>,
) -> Result<(), OutOfMemory>
    requires { EventWithin journal.now.payloads turn.now.event }
    ensures { OnOk result (page.new ≡ page.old ++ turn_line number (turn_shown journal.now.payloads turn.now)) }
{
    page.text("turn")?;
    push_turn_words(page, journal, number, turn)?;
    page.text("\n")
}

fn push_row_line(page: &mut Page, journal: &FlatJournal, row: &FlatRow) -> Result<(), OutOfMemory>
    requires { RowWithin journal.now.payloads row.now }
    ensures { OnOk result (page.new ≡ page.old ++ row_line (row_of journal.now.payloads row.now)) }
{
    push_row(page, journal, row)?;
    page.text("\n")
}

fn push_counts(page: &mut Page, journal: &FlatJournal) -> Result<(), OutOfMemory>
    ensures { OnOk result (page.new ≡ spaced page.old (count_words journal.now.turns)) }
{
    let counts = count_rows(journal);
    push_counted(page, " turns ", journal.turn_count() as u64)?;
    push_counted(page, " lists ", counts.lists)?;
    push_counted(page, " homes ", counts.homes)?;
    push_counted(page, " wires ", counts.wires)?;
    push_counted(page, " delivers ", counts.delivers)
}

/// Adds the last line of a journal.
fn push_end(page: &mut Page, journal: &FlatJournal) -> Result<(), OutOfMemory>
    ensures { OnOk result (page.new ≡ page.old ++ end_line journal.now.head journal.now.turns) }
{
    page.text("end")?;
    page.word("stack")?;
    page.number(u64::from(journal.head().stack))?;
    push_counts(page, journal)?;
    page.text("\n")
}

/// How far a journal is written. A number tells how many of its bindings or turns stand before those
/// that are left.
#[derive(Clone, Copy)]
enum Stage<'a> {
    Head,
    Bindings(usize, &'a [(ProtocolKind, usize)]),
    Rows(&'a [FlatRow], usize),
    Done,
}

/// The lines of a journal that are left, in order.
#[derive(Drop)]
pub struct FlatLines<'a> {
    journal: &'a FlatJournal,
    stage: Stage<'a>,
}

impl<'a> Model for FlatLines<'a> {
    ghost use Rattle.std.specs.Prelude.{List, ℕ};
    ghost use Rattle.flat_text.specs.Left.{lines_left, IsWithin};

    ghost Value = { List (List ℕ) };

    ghost view = { λ l. lines_left l.journal.now l.stage };

    ghost invariant = { λ l. IsWithin l.journal.now l.stage };
}

impl<'a> FlatLines<'a> {
    ghost use Rattle.flat_text.specs.Left.{bindings_left, rows_left, turns_left, Follows};

    /// All lines of a journal. It takes no memory.
    pub fn of(journal: &'a FlatJournal) -> FlatLines<'a>
        ensures { result ≡ lines journal.now }
    {
        FlatLines {
            journal,
            stage: Stage::Head,
        }
    }

    /// Adds the line of the first turn that is left, or the last line, and answers what is left then.
    fn push_next_turn(
        page: &mut Page,
        journal: &'a FlatJournal,
        before: usize,
    ) -> Result<Stage<'a>, OutOfMemory>
        requires { before ≤ length journal.now.turns }
        ensures { IfOk result (λ stage. Follows journal.now (turns_left journal.now before) page.old page.new stage) }
    {
        if before == journal.turn_count() {
            push_end(page, journal)?;
            return Ok(Stage::Done);
        }
        let turn = journal.turn(before);
        let number = before + 1;
        push_turn(page, journal, number, &turn)?;
        Ok(Stage::Rows(turn.rows, number))
    }

    fn push_next_row(
        page: &mut Page,
        journal: &'a FlatJournal,
        rows: &'a [FlatRow],
        before: usize,
    ) -> Result<Stage<'a>, OutOfMemory>
        requires within { All (RowWithin journal.now.payloads) rows.now }
        requires before { before ≤ length journal.now.turns }
        ensures { IfOk result (λ stage. Follows journal.now (rows_left journal.now rows.now before) page.old page.new stage) }
    {
        match rows {
            [] => Self::push_next_turn(page, journal, before),
            [row, more @ ..] => {
                push_row_line(page, journal, row)?;
                Ok(Stage::Rows(more, before))
            }
        }
    }

    fn push_next_binding(
        page: &mut Page,
        journal: &'a FlatJournal,
        number: usize,
        bindings: &'a [(ProtocolKind, usize)],
    ) -> Result<Stage<'a>, OutOfMemory>
        requires { number + length bindings.now ≡ length journal.now.head.bindings }
        ensures { IfOk result (λ stage. Follows journal.now (bindings_left journal.now number bindings.now) page.old page.new stage) }
    {
        let count = journal.head().bindings.items().len();
        match bindings {
            [] => Self::push_next_turn(page, journal, 0),
            [setup, more @ ..] => {
                prove!(number < count);
                push_binding(page, number, setup)?;
                Ok(Stage::Bindings(number + 1, more))
            }
        }
    }

    /// Adds the next line to the page, and answers false at the end. Where memory runs out the same
    /// lines are left.
    pub fn push_next(&mut self, page: &mut Page) -> Result<bool, OutOfMemory>
        ensures added { OnOk result (page.new ≡ page.old ++ concat (take 1 self.old)) }
        ensures left { OnOk result (self.new ≡ drop 1 self.old) }
        ensures more { IfOk result (λ more. IsTrue more ↔ 0 < length self.old) }
        ensures unchanged { OnErr result (self.new ≡ self.old) }
    {
        let journal = self.journal;
        let stage = match self.stage {
            Stage::Head => {
                push_head(page, journal.head())?;
                Stage::Bindings(0, journal.head().bindings.items())
            }
            Stage::Bindings(number, bindings) => {
                Self::push_next_binding(page, journal, number, bindings)?
            }
            Stage::Rows(rows, before) => Self::push_next_row(page, journal, rows, before)?,
            Stage::Done => return Ok(false),
        };
        self.stage = stage;
        Ok(true)
    }
}
