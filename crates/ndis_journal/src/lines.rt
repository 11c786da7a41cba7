//! The lines of a journal, one after the other.
ghost use Rattle.std.specs.Prelude.{◌≡◌, ℕ, ◌+◌, ◌<◌, ◌↔◌, ◌++◌, ◌∷◌, [], length, take, drop, codes, decimal, IfOk, OnErr, OnOk, IsTrue};
ghost use Rattle.std.specs.List.{concat};
ghost use Rattle.journal_words.specs.Words.{word, spaced};
ghost use Rattle.journal_events.specs.Events.{who_words, event_words, reply_words};
ghost use Rattle.journal_lines.specs.Text.{count_words, turn_line, row_line, end_line};
ghost use Rattle.ndis_journal.specs.Text.{lines};

use crate::counts::{Counted, count_rows};
use journal_events::events::{push_event, push_reply, push_who};
use journal_lines::{push_binding, push_head};
use journal_rows::rows::push_row;
use journal_store::Journal;
use journal_types::{Row, StackHead, Turn};
use journal_words::page::Page;
use ndis_base::{OutOfMemory, ProtocolKind};
use std::marker::Model;

fn push_turn_words(page: &mut Page, number: usize, turn: &Turn) -> Result<(), OutOfMemory>
    ensures { OnOk result (page.new ≡ spaced (spaced (spaced (spaced page.old (decimal number ∷ [])) (who_words turn.now.who)) (event_words turn.now.event)) (codes "=" ∷ reply_words turn.now.reply)) }
{
    page.number(number as u64)?;
    push_who(page, turn.who)?;
    push_event(page, &turn.event)?;
    page.word("=")?;
    push_reply(page, &turn.reply)
}

/// Adds the line of the turn of this number.
fn push_turn(page: &mut Page, number: usize, turn: &Turn) -> Result<(), OutOfMemory>
    ensures { OnOk result (page.new ≡ page.old ++ turn_line number turn.now) }
{
    page.text("turn")?;
    push_turn_words(page, number, turn)?;
    page.text("\n")
}

fn push_row_line(page: &mut Page, row: &Row) -> Result<(), OutOfMemory>
    ensures { OnOk result (page.new ≡ page.old ++ row_line row.now) }
{
    push_row(page, row)?;
    page.text("\n")
}

fn push_count(page: &mut Page, text: &str, count: u64) -> Result<(), OutOfMemory>
    ensures { OnOk result (page.new ≡ word (word page.old text.now) (decimal count)) }
{
    page.word(text)?;
    page.number(count)
}

fn push_counts(page: &mut Page, turns: &[Turn]) -> Result<(), OutOfMemory>
    ensures { OnOk result (page.new ≡ spaced page.old (count_words turns.now)) }
{
    push_count(page, "turns", turns.len() as u64)?;
    push_count(page, "lists", count_rows(Counted::Issue, turns))?;
    push_count(page, "homes", count_rows(Counted::Home, turns))?;
    push_count(page, "wires", count_rows(Counted::Wire, turns))?;
    push_count(page, "delivers", count_rows(Counted::Deliver, turns))
}

/// Adds the last line of a journal.
fn push_end(page: &mut Page, head: &StackHead, turns: &[Turn]) -> Result<(), OutOfMemory>
    ensures { OnOk result (page.new ≡ page.old ++ end_line head.now turns.now) }
{
    page.text("end")?;
    push_count(page, "stack", u64::from(head.stack))?;
    push_counts(page, turns)?;
    page.text("\n")
}

/// How far a journal is written. A number tells how many of its bindings or turns stand before those
/// that are left.
#[derive(Clone, Copy)]
enum Stage<'a> {
    Head,
    Bindings(usize, &'a [(ProtocolKind, usize)]),
    Rows(&'a [Row], usize, &'a [Turn]),
    Done,
}

/// The lines of a journal that are left, in order.
#[derive(Drop)]
pub struct Lines<'a> {
    journal: &'a Journal,
    stage: Stage<'a>,
}

impl<'a> Model for Lines<'a> {
    ghost use Rattle.std.specs.Prelude.{List, ℕ};
    ghost use Rattle.ndis_journal.specs.Left.{lines_left, IsWithin};

    ghost Value = { List (List ℕ) };

    ghost view = { λ l. lines_left l.journal.now l.stage };

    ghost invariant = { λ l. IsWithin l.journal.now l.stage };
}

impl<'a> Lines<'a> {
    ghost use Rattle.ndis_journal.specs.Left.{bindings_left, rows_left, turns_left, Follows};

    /// All lines of a journal. It takes no memory.
    pub fn of(journal: &'a Journal) -> Lines<'a>
        ensures { result ≡ lines journal.now }
    {
        Lines {
            journal,
            stage: Stage::Head,
        }
    }

    /// Adds the line of the first turn that is left, or the last line, and answers what is left then.
    fn push_next_turn(
        page: &mut Page,
        journal: &'a Journal,
        before: usize,
        turns: &'a [Turn],
    ) -> Result<Stage<'a>, OutOfMemory>
        requires { before + length turns.now ≡ length journal.now.turns }
        ensures { IfOk result (λ stage. Follows journal.now (turns_left journal.now before turns.now) page.old page.new stage) }
    {
        let all = journal.turns();
        let count = all.len();
        match turns {
            [] => {
                push_end(page, journal.head(), all)?;
                Ok(Stage::Done)
            }
            [turn, more @ ..] => {
                prove!(before < count);
                let number = before + 1;
                push_turn(page, number, turn)?;
                Ok(Stage::Rows(turn.rows.items(), number, more))
            }
        }
    }

    fn push_next_row(
        page: &mut Page,
        journal: &'a Journal,
        rows: &'a [Row],
        before: usize,
        turns: &'a [Turn],
    ) -> Result<Stage<'a>, OutOfMemory>
        requires { before + length turns.now ≡ length journal.now.turns }
        ensures { IfOk result (λ stage. Follows journal.now (rows_left journal.now rows.now before turns.now) page.old page.new stage) }
    {
        match rows {
            [] => Self::push_next_turn(page, journal, before, turns),
            [row, more @ ..] => {
                push_row_line(page, row)?;
                Ok(Stage::Rows(more, before, turns))
            }
        }
    }

    fn push_next_binding(
        page: &mut Page,
        journal: &'a Journal,
        number: usize,
        bindings: &'a [(ProtocolKind, usize)],
    ) -> Result<Stage<'a>, OutOfMemory>
        requires { number + length bindings.now ≡ length journal.now.head.bindings }
        ensures { IfOk result (λ stage. Follows journal.now (bindings_left journal.now number bindings.now) page.old page.new stage) }
    {
        let count = journal.head().bindings.items().len();
        match bindings {
            [] => Self::push_next_turn(page, journal, 0, journal.turns()),
            [setup, more @ ..] => {
                prove!(number < count);
                push_binding(page, number, setup)?;
                Ok(Stage::Bindings(number + 1, more))
            }
        }
    }

    /// Adds the next line to the page, and answers false at the end. Where memory runs out the same
    /// lines are left.
    pub fn push_next(&mut self, page: &mut Page) -> Result<bool, OutOfMemory>
        ensures added { OnOk result (page.new ≡ page.old ++ concat (take 1 self.old)) }
        ensures left { OnOk result (self.new ≡ drop 1 self.old) }
        ensures more { IfOk result (λ more. IsTrue more ↔ 0 < length self.old) }
        ensures unchanged { OnErr result (self.new ≡ self.old) }
    {
        let journal = self.journal;
        let stage = match self.stage {
            Stage::Head => {
                push_head(page, journal.head())?;
                Stage::Bindings(0, journal.head().bindings.items())
            }
            Stage::Bindings(number, bindings) => {
                Self::push_next_binding(page, journal, number, bindings)?
            }
            Stage::Rows(rows, before, turns) => {
                Self::push_next_row(page, journal, rows, before, turns)?
            }
            Stage::Done => return Ok(false),
        };
        self.stage = stage;
        Ok(true)
    }
}
