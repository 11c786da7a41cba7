//! A stack that is walked.
ghost use Rattle.std.specs.Prelude.{◌≡◌, ◌++◌, ◌∷◌, [], IfOk, OnOk, OnErr, length};
ghost use Rattle.stack_rules.specs.Net.{start, after_turn, after_rows, seen};
ghost use Rattle.plain_walk.specs.Choices.{choice_for, refuses};
ghost use Rattle.plain_walk.specs.Walked.{turn_of, next_turn, answer_of, ByRules};

use crate::fits::fits;
use crate::sizes::turn_bytes;
use journal_store::Journal;
use journal_types::{Event, Frames, Refusal, Reply, Row, Rows, StackHead, Turn};
use ndis_base::{CrossNo, OutOfMemory, Phase, Who};
use plain_net::PlainNet;
use plain_parts::copies::copy_frames;
use plain_stack::outcome_of;
use stack_rules::Choice;
use std::alloc::Global;
use std::marker::Model;
use std::mem;

/// What a turn answered, as far as a tail asks.
#[derive(Drop)]
pub enum Answer {
    Refused(Refusal),
    Idle,
    Waiting,
    Paused,
    Running,
    Nothing,
    Taken { message: CrossNo, frames: Frames },
    Other,
}

/// A stack that is walked by the rules alone: its journal, and the state after it. After want of memory
/// there is no state, and every further turn answers want of memory.
#[derive(Drop)]
pub struct WalkedStack {
    alloc: Global,
    net: Option<PlainNet>,
    journal: Journal,
}

impl Model for WalkedStack {
    ghost use Rattle.plain_walk.specs.Walked.{Walked};
    ghost use Rattle.plain_walk.specs.Stands.{IsWalked};

    ghost Value = { Walked };

    ghost view = { λ w. record { head = w.journal.head; turns = w.journal.turns } };

    ghost invariant = { λ w. IsWalked w.journal.head w.journal.turns w.net };
}

fn answer_of(alloc: Global, reply: &Reply) -> Result<Answer, OutOfMemory>
    ensures { IfOk result (λ a. a ≡ answer_of reply.now) }
{
    Ok(match reply {
        Reply::Refused(cause) => Answer::Refused(*cause),
        Reply::Idle => Answer::Idle,
        Reply::Waiting { .. } => Answer::Waiting,
        Reply::Paused => Answer::Paused,
        Reply::Running => Answer::Running,
        Reply::Nothing => Answer::Nothing,
        Reply::Taken { message, frames } => Answer::Taken {
            message: *message,
            frames: copy_frames(alloc, frames)?,
        },
        _ => Answer::Other,
    })
}

fn refuses(event: &Event) -> bool
    ensures { result ≡ refuses event.now }
{
    match event {
        Event::Insert { kind, setup, .. } => !fits(*kind, setup),
        Event::Replace { kind, setup, .. } => !fits(*kind, setup),
        _ => false,
    }
}

fn choice_for(event: &Event) -> Choice
    ensures { result ≡ choice_for event.now }
{
    Choice {
        keeps: true,
        refuses: refuses(event),
        shelf_empty: false,
    }
}

fn note_rows(net: &mut PlainNet, rows: &[Row]) -> Result<(), OutOfMemory>
    ensures { OnOk result (net.new ≡ after_rows net.old rows.now) }
{
    match rows {
        [] => Ok(()),
        [row, others @ ..] => {
            net.note(row)?;
            note_rows(net, others)
        }
    }
}

// The turn that an event makes; the state becomes the one after it.
fn make_turn(alloc: Global, net: &mut PlainNet, who: Who, event: Event) -> Result<Turn, OutOfMemory>
    ensures turn { IfOk result (λ turn. turn ≡ turn_of net.old who event) }
    ensures after { OnOk result (net.new ≡ after_turn net.old (turn_of net.old who event)) }
{
    let outcome = outcome_of(alloc, net, &event, choice_for(&event))?;
    net.tell(&event, outcome.reply())?;
    note_rows(net, outcome.rows())?;
    let (reply, rows) = outcome.into_parts();
    Ok(Turn {
        who,
        event,
        reply,
        rows: Rows::of(rows),
    })
}

fn write(journal: &mut Journal, turn: Turn) -> Result<(), OutOfMemory>
    ensures head { journal.new.head ≡ journal.old.head }
    ensures turns { OnOk result (journal.new.turns ≡ journal.old.turns ++ turn ∷ []) }
    ensures unchanged { OnErr result (journal.new.turns ≡ journal.old.turns) }
{
    let bytes = turn_bytes(&turn)?;
    journal.make_room(turn.rows.items().len() + 1, bytes)?;
    journal.push_in_room(turn);
    Ok(())
}

impl WalkedStack {
    /// A stack that has had no turn.
    pub fn start(alloc: Global, head: StackHead) -> Result<WalkedStack, OutOfMemory>
        ensures head { IfOk result (λ w. w.head ≡ head) }
        ensures turns { IfOk result (λ w. w.turns ≡ []) }
    {
        let net = PlainNet::start(alloc, &head)?;
        Ok(WalkedStack {
            alloc,
            net: Some(net),
            journal: Journal::make(alloc, head),
        })
    }

    pub fn head(&self) -> &StackHead
        ensures { result.now ≡ self.now.head }
    {
        self.journal.head()
    }

    /// The journal: each turn is the one that the rules give after those before it.
    pub fn journal(&self) -> &Journal
        ensures head { result.now.head ≡ self.now.head }
        ensures turns { result.now.turns ≡ self.now.turns }
        ensures by_rules { ByRules (start result.now.head) result.now.turns }
    {
        &self.journal
    }

    pub fn phase(&self) -> Result<Phase, OutOfMemory>
        ensures { IfOk result (λ p. p ≡ (seen self.now.head self.now.turns).phase) }
    {
        match &self.net {
            None => Err(OutOfMemory),
            Some(net) => Ok(net.phase()),
        }
    }

    /// How many filters are attached.
    pub fn filters(&self) -> Result<usize, OutOfMemory>
        ensures { IfOk result (λ n. n ≡ length (seen self.now.head self.now.turns).modules.order) }
    {
        match &self.net {
            None => Err(OutOfMemory),
            Some(net) => Ok(net.modules().order().len()),
        }
    }

    /// One turn by the rules.
    pub fn turn(&mut self, who: Who, event: Event) -> Result<Answer, OutOfMemory>
        ensures head { self.new.head ≡ self.old.head }
        ensures turn { OnOk result (self.new.turns ≡ self.old.turns ++ next_turn self.old who event ∷ []) }
        ensures answer { IfOk result (λ a. a ≡ answer_of (next_turn self.old who event).reply) }
        ensures unchanged { OnErr result (self.new.turns ≡ self.old.turns) }
    {
        let alloc = self.alloc;
        match mem::replace(&mut self.net, None) {
            None => Err(OutOfMemory),
            Some(before) => {
                let mut net = before;
                let turn = make_turn(alloc, &mut net, who, event)?;
                let answer = answer_of(alloc, &turn.reply)?;
                write(&mut self.journal, turn)?;
                self.net = Some(net);
                Ok(answer)
            }
        }
    }
}
