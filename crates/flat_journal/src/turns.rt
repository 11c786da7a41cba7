//! A journal of owned turns: each is copied.
ghost use Rattle.std.specs.Prelude.{◌≡◌, ◌++◌, ◌∷◌, [], IfOk, OnOk, OnErr, option_map};
ghost use Rattle.frame_arena.specs.Spans.{frames_at, SpanWithin};
ghost use Rattle.flat_journal.specs.Payloads.{filters_at, setup_at};
ghost use Rattle.flat_journal.specs.Shown.{event_of, reply_of, row_of};
ghost use Rattle.flat_journal.specs.Within.{FiltersWithin, SetupWithin, EventWithin, ReplyWithin, RowWithin};
ghost use Rattle.flat_journal.specs.Grows.{Grows, OnlyGrows};
ghost use Rattle.flat_journal.specs.Copied.{ValueStands, SetupStands};

use crate::copying::{
    EventPlaces, RowPlaces, filters_of_row, flat_event, flat_reply, flat_row, frames_of_event,
    frames_of_reply, frames_of_row, setup_of_event, value_of_event, value_of_row,
};
use crate::journal::FlatJournal;
use crate::types::{FilterSpan, FlatEvent, FlatReply, FlatRow, Room, SetupNo, ValueNo};
use frame_arena::FrameSpan;
use journal_types::{Event, Reply, Row, Setup, Turn};
use ndis_base::{Frame, OidValue, OutOfMemory};
use program_types::Program;
use std::alloc::Global;

impl FlatJournal {
    /// Copies frames.
    fn copy_frames(&mut self, frames: &[Frame]) -> Result<FrameSpan, OutOfMemory>
        ensures grows { OnlyGrows self.old self.new }
        ensures within { IfOk result (λ span. SpanWithin self.new.payloads.frames span) }
        ensures shown { IfOk result (λ span. frames_at self.new.payloads.frames span ≡ frames.now) }
    {
        let first = self.frame_count();
        for frame in frames {
            self.make_room(Room {
                frames: 1,
                bytes: frame.bytes().len(),
                ..Room::none()
            })?;
            self.push_frame(frame.bytes());
        }
        Ok(self.span_from(first))
    }

    /// Copies filters.
    fn copy_filters(&mut self, filters: &[u64]) -> Result<FilterSpan, OutOfMemory>
        ensures grows { OnlyGrows self.old self.new }
        ensures within { IfOk result (λ span. FiltersWithin self.new.payloads span) }
        ensures shown { IfOk result (λ span. filters_at self.new.payloads.filters span ≡ filters.now) }
    {
        self.make_room(Room {
            filters: filters.len(),
            ..Room::none()
        })?;
        Ok(self.push_filters(filters))
    }

    /// Copies the value of an OID request, if there is one.
    fn copy_value(&mut self, value: Option<&OidValue>) -> Result<ValueNo, OutOfMemory>
        ensures grows { OnlyGrows self.old self.new }
        ensures stands { IfOk result (λ place. ValueStands self.new.payloads place (option_map (λ v. v.now) value.entry)) }
    {
        let Some(value) = value else {
            return Ok(ValueNo(0));
        };
        let bytes = value.bytes();
        self.make_room(Room {
            frames: 1,
            bytes: bytes.len(),
            ..Room::none()
        })?;
        Ok(self.push_value(bytes))
    }

    /// Copies the set-up of a filter, if there is one.
    fn copy_setup(&mut self, alloc: Global, setup: Option<&Setup>) -> Result<SetupNo, OutOfMemory>
        ensures grows { OnlyGrows self.old self.new }
        ensures stands { IfOk result (λ place. SetupStands self.new.payloads place (option_map (λ s. s.now) setup.entry)) }
    {
        let Some(setup) = setup else {
            return Ok(SetupNo(0));
        };
        let copy = copied_setup(alloc, setup)?;
        self.make_room(Room {
            setups: 1,
            ..Room::none()
        })?;
        Ok(self.push_setup(copy))
    }

    /// Copies what a row refers to.
    fn copy_row(&mut self, row: &Row) -> Result<FlatRow, OutOfMemory>
        ensures grows { OnlyGrows self.old self.new }
        ensures within { IfOk result (λ flat. RowWithin self.new.payloads flat) }
        ensures shown { IfOk result (λ flat. row_of self.new.payloads flat ≡ row.now) }
    {
        let frames = self.copy_frames(frames_of_row(row))?;
        let value = self.copy_value(value_of_row(row))?;
        let filters = self.copy_filters(filters_of_row(row))?;
        let places = RowPlaces {
            frames,
            value,
            filters,
        };
        Ok(flat_row(places, row))
    }

    /// Copies what an event refers to, so that a turn may be of it.
    pub fn copy_event(&mut self, alloc: Global, event: &Event) -> Result<FlatEvent, OutOfMemory>
        ensures grows { OnlyGrows self.old self.new }
        ensures within { IfOk result (λ flat. EventWithin self.new.payloads flat) }
        ensures shown { IfOk result (λ flat. event_of self.new.payloads flat ≡ event.now) }
    {
        let frames = self.copy_frames(frames_of_event(event))?;
        let value = self.copy_value(value_of_event(event))?;
        let setup = self.copy_setup(alloc, setup_of_event(event))?;
        let places = EventPlaces {
            frames,
            value,
            setup,
        };
        Ok(flat_event(places, event))
    }

    /// Copies what a reply refers to.
    fn copy_reply(&mut self, reply: &Reply) -> Result<FlatReply, OutOfMemory>
        ensures grows { OnlyGrows self.old self.new }
        ensures within { IfOk result (λ flat. ReplyWithin self.new.payloads flat) }
        ensures shown { IfOk result (λ flat. reply_of self.new.payloads flat ≡ reply.now) }
    {
        let frames = self.copy_frames(frames_of_reply(reply))?;
        Ok(flat_reply(frames, reply))
    }

    /// Copies rows, as those of the turn under way.
    fn copy_rows(&mut self, rows: &[Row]) -> Result<(), OutOfMemory>
        ensures head { self.new.head ≡ self.old.head }
        ensures turns { self.new.turns ≡ self.old.turns }
        ensures rows { OnOk result (self.new.rows ≡ self.old.rows ++ rows.now) }
        ensures payloads { Grows self.old.payloads self.new.payloads }
    {
        for row in rows {
            let flat = self.copy_row(row)?;
            self.make_room(Room {
                rows: 1,
                ..Room::none()
            })?;
            self.write_row(flat);
        }
        Ok(())
    }

    fn copy_turn(&mut self, alloc: Global, turn: &Turn) -> Result<(), OutOfMemory>
        requires { self.old.rows ≡ [] }
        ensures head { self.new.head ≡ self.old.head }
        ensures turns { OnOk result (self.new.turns ≡ self.old.turns ++ turn.now ∷ []) }
        ensures turns_kept { OnErr result (self.new.turns ≡ self.old.turns) }
        ensures rows { OnOk result (self.new.rows ≡ []) }
        ensures payloads { Grows self.old.payloads self.new.payloads }
    {
        self.copy_rows(turn.rows.items())?;
        let event = self.copy_event(alloc, &turn.event)?;
        let reply = self.copy_reply(&turn.reply)?;
        self.make_room(Room {
            turns: 1,
            ..Room::none()
        })?;
        self.end_turn(turn.who, event, reply);
        Ok(())
    }

    /// Adds a copy of a turn, where no turn is under way.
    pub fn push_turn(&mut self, alloc: Global, turn: &Turn) -> Result<(), OutOfMemory>
        requires { self.old.rows ≡ [] }
        ensures head { self.new.head ≡ self.old.head }
        ensures turns { OnOk result (self.new.turns ≡ self.old.turns ++ turn.now ∷ []) }
        ensures turns_kept { OnErr result (self.new.turns ≡ self.old.turns) }
        ensures rows { self.new.rows ≡ [] }
        ensures payloads { Grows self.old.payloads self.new.payloads }
    {
        match self.copy_turn(alloc, turn) {
            Ok(()) => Ok(()),
            Err(fault) => {
                self.abandon_rows();
                Err(fault)
            }
        }
    }
}

fn copied_program(alloc: Global, program: &Program) -> Result<Program, OutOfMemory>
    ensures { IfOk result (λ copy. copy ≡ program.now) }
{
    Ok(Program::of(Vec::from_slice(alloc, program.rules())?))
}

/// A copy of a filter's set-up.
pub fn copied_setup(alloc: Global, setup: &Setup) -> Result<Setup, OutOfMemory>
    ensures { IfOk result (λ copy. copy ≡ setup.now) }
{
    Ok(Setup {
        handlers: setup.handlers,
        pool: setup.pool,
        send: copied_program(alloc, &setup.send)?,
        receive: copied_program(alloc, &setup.receive)?,
    })
}
