//! The tray, and the rows that are written into it.
ghost use Rattle.std.specs.Prelude.{◌≡◌, ℕ, ◌*◌, ◌+◌, ◌-◌, ◌≤◌, ◌<◌, ◌^◌, ◌∷◌, ◌++◌, [], None, Some, IfOk, OnOk, false, length, sum_by, List};
ghost use Rattle.agenda_items.specs.Views.{kept_as};
ghost use Rattle.agenda_items.specs.declared.Item.{Item};
ghost use Rattle.agenda_items.specs.declared.Carried.TheVariants as carried;
ghost use Rattle.journal_types.specs.declared.Row.TheVariants as row;
ghost use Rattle.frame_arena.specs.Spans.{frames_at, SpanWithin};
ghost use Rattle.flat_journal.specs.Rooms.{Covers, Uses, no_room};
ghost use Rattle.flat_journal.specs.Shown.{row_of};
ghost use Rattle.flat_journal.specs.Within.{RowWithin};
ghost use Rattle.ndis_base.specs.declared.Origin.TheVariants as origin;
ghost use Rattle.agenda_items.specs.Waits.{waits_at};
ghost use Rattle.driver_tray.specs.Tray.{TrayView, IsNew, written, framed, passed, issue_row, clone_issued, IsSteady, IsLow, HasNumbers};
ghost use Rattle.driver_tray.specs.Waits.{waits_after};

use crate::telling::Telling;
use agenda_items::{Carried, Item, dequeue, enqueue};
use buffer_pools::{BufferList, Label, ListPool};
use flat_journal::{FlatJournal, FlatRow, Room};
use frame_arena::FrameSpan;
use journal_types::{PassWay, StackHead, Target};
use ndis_base::{Frame, ListNo, ModuleId, OutOfMemory};
use stack_ledger::StackLedger;
use std::alloc::Global;
use std::collections::VecDeque;
use std::marker::Model;
use std::mem;
use waiting_lists::WaitingLists;

const FAR: u64 = 1 << 60;

/// The journal and the turn under way, what is on its way, and the pool of the module that is called.
#[derive(Drop)]
pub struct Tray {
    pub(crate) journal: FlatJournal,
    pub(crate) told: Option<Telling>,
    pub(crate) ledger: StackLedger,
    pub(crate) queue: VecDeque<Carried>,
    pub(crate) slack: usize,
    waits: WaitingLists,
    pub(crate) caller: ModuleId,
    pub(crate) pool: ListPool,
}

impl Model for Tray {
    ghost use Rattle.driver_tray.specs.Tray.{TrayView};

    ghost Value = { TrayView };

    ghost use Rattle.driver_tray.specs.Inside.{tray_view, IsTray};

    ghost view = { tray_view };

    ghost invariant = { IsTray };
}

fn push_list(journal: &mut FlatJournal, list: &BufferList) -> FrameSpan
    requires frame_room { length list.now.frames ≤ journal.old.room.frames }
    requires byte_room { sum_by length list.now.frames ≤ journal.old.room.bytes }
    ensures head { journal.new.head ≡ journal.old.head }
    ensures turns { journal.new.turns ≡ journal.old.turns }
    ensures rows { journal.new.rows ≡ journal.old.rows }
    ensures payloads { journal.new.payloads ≡ record journal.old.payloads { frames = journal.old.payloads.frames ++ list.now.frames } }
    ensures within { SpanWithin journal.new.payloads.frames result }
    ensures shown { frames_at journal.new.payloads.frames result ≡ list.now.frames }
    ensures room { Uses journal.old.room journal.new.room (record no_room { frames = length list.now.frames; bytes = sum_by length list.now.frames }) }
{
    let first = journal.frame_count();
    for i in 0..list.buffers() {
        journal.push_frame(list.frame(i).data());
    }
    journal.span_from(first)
}

fn write_issue(journal: &mut FlatJournal, label: Label, span: FrameSpan)
    requires within { SpanWithin journal.old.payloads.frames span }
    requires room { 1 ≤ journal.old.room.rows }
    ensures head { journal.new.head ≡ journal.old.head }
    ensures turns { journal.new.turns ≡ journal.old.turns }
    ensures rows { journal.new.rows ≡ journal.old.rows ++ issue_row label (frames_at journal.old.payloads.frames span) ∷ [] }
    ensures payloads { journal.new.payloads ≡ journal.old.payloads }
    ensures room { Uses journal.old.room journal.new.room (record no_room { rows = 1 }) }
{
    journal.write_row(FlatRow::Issue {
        list: label.number,
        owner: label.owner,
        config: label.config,
        direction: label.direction,
        cancel: label.cancel,
        origin: label.origin,
        frames: span,
    });
}

fn follow(waits: &mut WaitingLists, row: FlatRow)
    ensures { waits.new ≡ waits_after row waits.old }
{
    match row {
        FlatRow::Pass { list, .. } => waits.take_back(list.0),
        FlatRow::Home { list, .. } => waits.go_home(list.0),
        _ => {}
    }
}

fn is_far(ledger: &StackLedger) -> bool
    ensures low { result ≡ false → IsLow ledger.now.net }
    ensures numbers { result ≡ false → HasNumbers ledger.now.net }
{
    (ledger.next_list().0 >= FAR || ledger.next_status_number().0 >= FAR)
        || (ledger.sent() >= FAR || ledger.received() >= FAR)
        || ledger.next_request().0 >= FAR
}

impl Tray {
    /// The tray of a stack without turns.
    pub fn make(alloc: Global, head: StackHead) -> Result<Tray, OutOfMemory>
        ensures { IfOk result (λ t. IsNew head t) }
    {
        let ledger = StackLedger::make(alloc, &head)?;
        let pool = ListPool::make(alloc, 0, 0)?;
        Ok(Tray {
            journal: FlatJournal::make(alloc, head),
            told: None,
            ledger,
            queue: VecDeque::new(alloc),
            slack: 0,
            waits: WaitingLists::make(alloc),
            caller: ModuleId::Miniport,
            pool,
        })
    }

    /// Makes room in the journal, and for so many more things on their way and requests together. It also
    /// answers want of memory where a count has come to 2 to the power of 60, which no run can reach.
    pub fn make_room(&mut self, room: Room, things: usize) -> Result<(), OutOfMemory>
        ensures same { self.new ≡ record self.old { room = self.new.room; slack = self.new.slack } }
        ensures room { OnOk result (Covers self.new.room room) }
        ensures slack { OnOk result (things ≤ self.new.slack) }
        ensures low { OnOk result (IsLow self.new.net) }
        ensures numbers { OnOk result (HasNumbers self.new.net) }
        ensures room_kept { Covers self.new.room self.old.room }
        ensures slack_kept { self.old.slack ≤ self.new.slack }
    {
        if is_far(&self.ledger) {
            return Err(OutOfMemory);
        }
        self.journal.make_room(room)?;
        if self.slack < things {
            self.waits.make_room(things)?;
            self.queue.reserve(things)?;
            self.ledger.make_room(things)?;
            self.slack = things;
        }
        Ok(())
    }

    /// Writes a row that changes only lists, statuses, answers and messages.
    pub fn write(&mut self, row: FlatRow)
        requires steady { IsSteady row }
        requires within { RowWithin self.old.payloads row }
        requires room { 1 ≤ self.old.room.rows }
        ensures { self.new ≡ written self.old (row_of self.old.payloads row) }
    {
        self.journal.write_row(row);
        follow(&mut self.waits, row);
    }

    fn enqueue(&mut self, list: BufferList, way: PassWay, to: Target)
        requires { 1 ≤ self.old.slack }
        ensures { self.new ≡ record self.old { queue = self.old.queue ++ carried.List list way to ∷ []; slack = self.old.slack - 1 } }
    {
        enqueue(&mut self.queue, list, way, to);
        self.slack -= 1;
    }

    /// Writes that a list is passed, and puts it behind what is on its way.
    pub fn pass(&mut self, list: BufferList, way: PassWay, to: Target)
        requires room { 1 ≤ self.old.room.rows }
        requires slack { 1 ≤ self.old.slack }
        ensures { self.new ≡ passed self.old list (row.Pass list.label.number way to) }
    {
        self.write(FlatRow::Pass {
            list: list.number(),
            way,
            to,
        });
        self.enqueue(list, way, to);
    }

    /// Takes the first thing that is on its way.
    pub fn dequeue(&mut self) -> Option<Item>
        ensures none { result ≡ None → (self.new ≡ self.old) × (self.old.queue ≡ []) }
        ensures some { (i : Item) → result ≡ Some i → self.old ≡ record self.new { queue = kept_as i ∷ self.new.queue } }
    {
        dequeue(&mut self.queue)
    }

    /// The module that is called.
    pub fn caller(&self) -> ModuleId
        ensures { result ≡ self.now.caller }
    {
        self.caller
    }

    /// Tells which module is called next.
    pub fn set_caller(&mut self, module: ModuleId)
        ensures { self.new ≡ record self.old { caller = «module» } }
    {
        self.caller = module;
    }

    /// Changes the pool of the module that is called.
    pub fn exchange_pool(&mut self, pool: &mut ListPool)
        ensures tray { self.new ≡ record self.old { pool = pool.old } }
        ensures pool { pool.new ≡ self.old.pool }
    {
        mem::swap(&mut self.pool, pool);
    }

    /// Adds frames that rows can show, and gives their span.
    pub fn hold_frames(&mut self, frames: &[Frame]) -> FrameSpan
        requires frame_room { length frames.now ≤ self.old.room.frames }
        requires byte_room { sum_by length frames.now ≤ self.old.room.bytes }
        ensures tray { self.new ≡ framed self.old frames.now }
        ensures within { SpanWithin self.new.payloads.frames result }
        ensures shown { frames_at self.new.payloads.frames result ≡ frames.now }
    {
        self.journal.push_frames(frames)
    }

    /// Adds the frames of a list that rows can show, and gives their span.
    pub fn hold_list(&mut self, list: &BufferList) -> FrameSpan
        requires frame_room { length list.now.frames ≤ self.old.room.frames }
        requires byte_room { sum_by length list.now.frames ≤ self.old.room.bytes }
        ensures tray { self.new ≡ framed self.old list.now.frames }
        ensures within { SpanWithin self.new.payloads.frames result }
        ensures shown { frames_at self.new.payloads.frames result ≡ list.now.frames }
    {
        push_list(&mut self.journal, list)
    }

    /// Writes the Issue row of a list that is no clone, whose frames the journal has.
    pub(crate) fn issue_held(&mut self, label: Label, span: FrameSpan)
        requires root { label.origin ≡ origin.Root }
        requires number { label.number.0 ≡ self.old.net.next.list }
        requires low { self.old.net.next.list < 2 ^ 60 }
        requires received { self.old.net.port.received + span.count < 2 ^ 64 }
        requires within { SpanWithin self.old.payloads.frames span }
        requires room { 1 ≤ self.old.room.rows }
        ensures { self.new ≡ written self.old (issue_row label (frames_at self.old.payloads.frames span)) }
    {
        write_issue(&mut self.journal, label, span);
        self.ledger.issue(label.owner, span.count);
    }

    /// Writes the Issue row of a copy of a lent list, whose frames the journal has.
    pub(crate) fn issue_copy(&mut self, label: Label, lent: ListNo, span: FrameSpan)
        requires copy { label.origin ≡ origin.Copy lent }
        requires number { label.number.0 ≡ self.old.net.next.list }
        requires low { self.old.net.next.list < 2 ^ 60 }
        requires received { self.old.net.port.received + span.count < 2 ^ 64 }
        requires within { SpanWithin self.old.payloads.frames span }
        requires room { 1 ≤ self.old.room.rows }
        ensures { self.new ≡ written self.old (issue_row label (frames_at self.old.payloads.frames span)) }
    {
        write_issue(&mut self.journal, label, span);
        self.ledger.issue(label.owner, span.count);
    }

    /// Writes the Issue row of a clone whose frames the journal has, and puts the clone behind what is on
    /// its way. The row by which it is passed is written after it.
    pub(crate) fn issue_clone(
        &mut self,
        label: Label,
        original: ListNo,
        span: FrameSpan,
        clone: BufferList,
        way: PassWay,
        to: Target,
    )
        requires clone { label.origin ≡ origin.Clone original }
        requires number { label.number.0 ≡ self.old.net.next.list }
        requires low { self.old.net.next.list < 2 ^ 60 }
        requires received { self.old.net.port.received + span.count < 2 ^ 64 }
        requires within { SpanWithin self.old.payloads.frames span }
        requires room { 1 ≤ self.old.room.rows }
        requires slack { 1 ≤ self.old.slack }
        ensures { self.new ≡ clone_issued self.old label (frames_at self.old.payloads.frames span) clone way to }
    {
        write_issue(&mut self.journal, label, span);
        self.ledger.issue(label.owner, span.count);
        self.waits.push_clone(label.number.0, original.0);
        enqueue(&mut self.queue, clone, way, to);
        self.slack -= 1;
    }

    /// Whether a list waits: it has crossed, or a clone of it is live.
    pub fn waits(&self, list: ListNo) -> bool
        ensures { result ≡ waits_at self.now.net list.0 }
    {
        self.waits.waits(list.0)
    }
}
