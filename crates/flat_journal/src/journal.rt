//! The journal of a stack, written row by row.
ghost use Rattle.std.specs.Prelude.{◌≡◌, ◌+◌, ◌<◌, ◌≤◌, ◌++◌, ◌∷◌, [], OnOk, All, drop, length, map, slice_get, slice_index_or, sum_by, Some, vec_len, vec_capacity};
ghost use Rattle.frame_arena.specs.Spans.{frames_at, SpanWithin};
ghost use Rattle.flat_journal.specs.Payloads.{filters_at, value_at, setup_at};
ghost use Rattle.flat_journal.specs.Shown.{event_of, reply_of, row_of};
ghost use Rattle.flat_journal.specs.Within.{FiltersWithin, ValueWithin, SetupWithin, EventWithin, ReplyWithin, RowWithin};
ghost use Rattle.flat_journal.specs.Rooms.{no_room, Covers, Uses};

use crate::types::{
    FilterSpan, FlatEvent, FlatReply, FlatRow, Room, SetupNo, TurnHead, TurnRef, ValueNo,
};
use frame_arena::{FrameArena, FrameSpan};
use journal_types::{Setup, StackHead};
use ndis_base::{Frame, OutOfMemory, Who};
use std::alloc::Global;
use std::marker::Model;

/// The turns that a stack of this head has had, and the rows of the turn under way. Room is made
/// before anything is written, and only making it takes memory.
#[derive(Drop)]
pub struct FlatJournal {
    head: StackHead,
    turns: Vec<TurnHead>,
    rows: Vec<FlatRow>,
    begun: usize,
    arena: FrameArena,
    filters: Vec<u64>,
    setups: Vec<Setup>,
}

impl Model for FlatJournal {
    ghost use Rattle.flat_journal.specs.Flat.{FlatView};

    ghost Value = { FlatView };

    ghost use Rattle.flat_journal.specs.Laid.{shown, IsKept};

    ghost view = { shown };

    ghost invariant = { IsKept };
}

impl FlatJournal {
    /// A journal without turns and rows. It takes no memory.
    pub fn make(alloc: Global, head: StackHead) -> FlatJournal
        ensures head { result.head ≡ head }
        ensures turns { result.turns ≡ [] }
        ensures rows { result.rows ≡ [] }
        ensures payloads { result.payloads ≡ record { frames = []; filters = []; setups = [] } }
    {
        FlatJournal {
            head,
            turns: Vec::new(alloc),
            rows: Vec::new(alloc),
            begun: 0,
            arena: FrameArena::make(alloc),
            filters: Vec::new(alloc),
            setups: Vec::new(alloc),
        }
    }

    pub fn head(&self) -> &StackHead
        ensures { result.now ≡ self.now.head }
    {
        &self.head
    }

    /// Writes a row of the turn under way. It takes no memory.
    pub fn write_row(&mut self, row: FlatRow)
        requires within { RowWithin self.old.payloads row }
        requires room { 1 ≤ self.old.room.rows }
        ensures head { self.new.head ≡ self.old.head }
        ensures turns { self.new.turns ≡ self.old.turns }
        ensures rows { self.new.rows ≡ self.old.rows ++ row_of self.old.payloads row ∷ [] }
        ensures payloads { self.new.payloads ≡ self.old.payloads }
        ensures room { Uses self.old.room self.new.room (record no_room { rows = 1 }) }
    {
        self.rows.push_reserved(row);
    }

    /// Ends the turn under way with the rows that were written. It takes no memory.
    pub fn end_turn(&mut self, who: Who, event: FlatEvent, reply: FlatReply)
        requires event { EventWithin self.old.payloads event }
        requires reply { ReplyWithin self.old.payloads reply }
        requires room { 1 ≤ self.old.room.turns }
        ensures head { self.new.head ≡ self.old.head }
        ensures turns { self.new.turns ≡ self.old.turns ++ record { who = who; event = event_of self.old.payloads event; reply = reply_of self.old.payloads reply; rows = self.old.rows } ∷ [] }
        ensures rows { self.new.rows ≡ [] }
        ensures payloads { self.new.payloads ≡ self.old.payloads }
        ensures room { Uses self.old.room self.new.room (record no_room { turns = 1 }) }
    {
        let end = self.rows.len();
        let turn = TurnHead {
            who,
            event,
            reply,
            first: self.begun,
            end,
        };
        self.turns.push_reserved(turn);
        self.begun = end;
    }

    /// Takes the rows of the turn under way away.
    pub fn abandon_rows(&mut self)
        ensures head { self.new.head ≡ self.old.head }
        ensures turns { self.new.turns ≡ self.old.turns }
        ensures rows { self.new.rows ≡ [] }
        ensures payloads { self.new.payloads ≡ self.old.payloads }
        ensures room { Covers self.new.room self.old.room }
    {
        self.rows.truncate(self.begun);
    }

    /// Makes at least so much room.
    pub fn make_room(&mut self, room: Room) -> Result<(), OutOfMemory>
        ensures head { self.new.head ≡ self.old.head }
        ensures turns { self.new.turns ≡ self.old.turns }
        ensures rows { self.new.rows ≡ self.old.rows }
        ensures payloads { self.new.payloads ≡ self.old.payloads }
        ensures room { OnOk result (Covers self.new.room room) }
        ensures kept { Covers self.new.room self.old.room }
    {
        self.arena.make_room(room.frames, room.bytes)?;
        reserve_both(&mut self.turns, room.turns, &mut self.rows, room.rows)?;
        reserve_both(
            &mut self.filters,
            room.filters,
            &mut self.setups,
            room.setups,
        )
    }

    /// How many frames there are: where the next one will stand.
    pub fn frame_count(&self) -> usize
        ensures { result ≡ length self.now.payloads.frames }
    {
        self.arena.count()
    }

    /// Adds a frame that rows can show. It takes no memory.
    pub fn push_frame(&mut self, frame: &[u8])
        requires frame_room { 1 ≤ self.old.room.frames }
        requires byte_room { length frame.now ≤ self.old.room.bytes }
        ensures head { self.new.head ≡ self.old.head }
        ensures turns { self.new.turns ≡ self.old.turns }
        ensures rows { self.new.rows ≡ self.old.rows }
        ensures payloads { self.new.payloads ≡ record self.old.payloads { frames = self.old.payloads.frames ++ frame.now ∷ [] } }
        ensures room { Uses self.old.room self.new.room (record no_room { frames = 1; bytes = length frame.now }) }
    {
        self.arena.push_frame_reserved(frame);
    }

    /// Adds frames that rows can show, and gives their span. It takes no memory.
    pub fn push_frames(&mut self, frames: &[Frame]) -> FrameSpan
        requires frame_room { length frames.now ≤ self.old.room.frames }
        requires byte_room { sum_by length frames.now ≤ self.old.room.bytes }
        ensures head { self.new.head ≡ self.old.head }
        ensures turns { self.new.turns ≡ self.old.turns }
        ensures rows { self.new.rows ≡ self.old.rows }
        ensures payloads { self.new.payloads ≡ record self.old.payloads { frames = self.old.payloads.frames ++ frames.now } }
        ensures span { result ≡ record { first = length self.old.payloads.frames; count = length frames.now } }
        ensures within { SpanWithin self.new.payloads.frames result }
        ensures shown { frames_at self.new.payloads.frames result ≡ frames.now }
        ensures room { Uses self.old.room self.new.room (record no_room { frames = length frames.now; bytes = sum_by length frames.now }) }
    {
        self.arena.push_frames_reserved(frames)
    }

    /// The span of the frames from the number `first` on.
    pub fn span_from(&self, first: usize) -> FrameSpan
        requires { first ≤ length self.now.payloads.frames }
        ensures within { SpanWithin self.now.payloads.frames result }
        ensures shown { frames_at self.now.payloads.frames result ≡ drop first self.now.payloads.frames }
    {
        self.arena.span_from(first)
    }

    /// Adds the value of an OID request. It takes no memory.
    pub fn push_value(&mut self, value: &[u8]) -> ValueNo
        requires frame_room { 1 ≤ self.old.room.frames }
        requires byte_room { length value.now ≤ self.old.room.bytes }
        ensures head { self.new.head ≡ self.old.head }
        ensures turns { self.new.turns ≡ self.old.turns }
        ensures rows { self.new.rows ≡ self.old.rows }
        ensures payloads { self.new.payloads ≡ record self.old.payloads { frames = self.old.payloads.frames ++ value.now ∷ [] } }
        ensures number { result ≡ record { 0 = length self.old.payloads.frames } }
        ensures within { ValueWithin self.new.payloads result }
        ensures shown { value_at self.new.payloads.frames result ≡ value.now }
        ensures room { Uses self.old.room self.new.room (record no_room { frames = 1; bytes = length value.now }) }
    {
        let at = self.frame_count();
        self.push_frame(value);
        ValueNo(at)
    }

    /// Adds the filters of a configuration. It takes no memory.
    pub fn push_filters(&mut self, filters: &[u64]) -> FilterSpan
        requires { length filters.now ≤ self.old.room.filters }
        ensures head { self.new.head ≡ self.old.head }
        ensures turns { self.new.turns ≡ self.old.turns }
        ensures rows { self.new.rows ≡ self.old.rows }
        ensures payloads { self.new.payloads ≡ record self.old.payloads { filters = self.old.payloads.filters ++ filters.now } }
        ensures span { result ≡ record { first = length self.old.payloads.filters; count = length filters.now } }
        ensures within { FiltersWithin self.new.payloads result }
        ensures shown { filters_at self.new.payloads.filters result ≡ filters.now }
        ensures room { Uses self.old.room self.new.room (record no_room { filters = length filters.now }) }
    {
        let first = self.filters.len();
        push_all(&mut self.filters, filters);
        FilterSpan {
            first,
            count: filters.len(),
        }
    }

    /// Adds the set-up of a filter. It takes no memory.
    pub fn push_setup(&mut self, setup: Setup) -> SetupNo
        requires { 1 ≤ self.old.room.setups }
        ensures head { self.new.head ≡ self.old.head }
        ensures turns { self.new.turns ≡ self.old.turns }
        ensures rows { self.new.rows ≡ self.old.rows }
        ensures payloads { self.new.payloads ≡ record self.old.payloads { setups = self.old.payloads.setups ++ setup ∷ [] } }
        ensures number { result ≡ record { 0 = length self.old.payloads.setups } }
        ensures within { SetupWithin self.new.payloads result }
        ensures shown { setup_at self.new.payloads.setups result ≡ setup }
        ensures room { Uses self.old.room self.new.room (record no_room { setups = 1 }) }
    {
        let at = self.setups.len();
        self.setups.push_reserved(setup);
        SetupNo(at)
    }

    /// How many turns there are.
    pub fn turn_count(&self) -> usize
        ensures { result ≡ length self.now.turns }
    {
        self.turns.len()
    }

    /// A turn, with its rows.
    pub fn turn(&self, at: usize) -> TurnRef<'_>
        requires { at < length self.now.turns }
        ensures shown { slice_get self.now.turns at ≡ Some (record { who = result.who; event = event_of self.now.payloads result.event; reply = reply_of self.now.payloads result.reply; rows = map (row_of self.now.payloads) result.rows.now }) }
        ensures event { EventWithin self.now.payloads result.event }
        ensures reply { ReplyWithin self.now.payloads result.reply }
        ensures rows { All (RowWithin self.now.payloads) result.rows.now }
    {
        let turn = self.turns[at];
        TurnRef {
            who: turn.who,
            event: turn.event,
            reply: turn.reply,
            rows: &self.rows[turn.first..turn.end],
        }
    }

    /// The bytes of a frame.
    pub fn frame(&self, at: usize) -> &[u8]
        requires { at < length self.now.payloads.frames }
        ensures { result.now ≡ slice_index_or self.now.payloads.frames at [] }
    {
        self.arena.frame(at)
    }

    /// The value of an OID request.
    pub fn value(&self, value: ValueNo) -> &[u8]
        requires { ValueWithin self.now.payloads value }
        ensures { result.now ≡ value_at self.now.payloads.frames value }
    {
        self.arena.frame(value.0)
    }

    /// The filters of a configuration.
    pub fn filters(&self, filters: FilterSpan) -> &[u64]
        requires { FiltersWithin self.now.payloads filters }
        ensures { result.now ≡ filters_at self.now.payloads.filters filters }
    {
        &self.filters[filters.first..filters.first + filters.count]
    }

    /// The set-up of a filter.
    pub fn setup(&self, setup: SetupNo) -> &Setup
        requires { SetupWithin self.now.payloads setup }
        ensures { result.now ≡ setup_at self.now.payloads.setups setup }
    {
        &self.setups[setup.0]
    }
}

fn reserve_both<T, U>(
    first: &mut Vec<T>,
    first_room: usize,
    second: &mut Vec<U>,
    second_room: usize,
) -> Result<(), OutOfMemory>
    ensures items { (first.new.items ≡ first.old.items) × (second.new.items ≡ second.old.items) }
    ensures len { (vec_len first.new ≡ vec_len first.old) × (vec_len second.new ≡ vec_len second.old) }
    ensures room { OnOk result ((vec_len first.new + first_room ≤ vec_capacity first.new) × (vec_len second.new + second_room ≤ vec_capacity second.new)) }
    ensures kept { (vec_capacity first.old ≤ vec_capacity first.new) × (vec_capacity second.old ≤ vec_capacity second.new) }
{
    first.reserve(first_room)?;
    second.reserve(second_room)?;
    Ok(())
}

fn push_all(numbers: &mut Vec<u64>, more: &[u64])
    requires { vec_len numbers.old + length more.now ≤ vec_capacity numbers.old }
    ensures items { numbers.new.items ≡ numbers.old.items ++ more.now }
    ensures len { vec_len numbers.new ≡ vec_len numbers.old + length more.now }
    ensures capacity { vec_capacity numbers.new ≡ vec_capacity numbers.old }
{
    for number in more {
        numbers.push_reserved(*number);
    }
}
