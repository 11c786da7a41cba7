//! What a driver logs: the frames of each list that it put on the wire or was delivered. The frames of all
//! entries stand in one arena.
#![tactic(auto)]

ghost use Rattle.std.specs.Prelude.{◌≡◌, ℕ, ◌+◌, ◌-◌, ◌≤◌, ◌<◌, ◌++◌, ◌∷◌, [], OnOk, length, slice_index_or, sum_by};
ghost use Rattle.buffer_pools.specs.Views.{Fits};
ghost use Rattle.frame_arena.specs.Spans.{frames_at, SpanWithin};
ghost use Rattle.driver_log.specs.Log.{LogView};

use buffer_pools::BufferList;
use frame_arena::{FrameArena, FrameSpan};
use ndis_base::OutOfMemory;
use std::alloc::Global;
use std::marker::Model;

/// The most frames that a list has.
const FRAMES: usize = 8;

/// The most bytes that the frames of a list have.
const BYTES: usize = 8 * 1518;

/// A log, seen as the list of its entries, each of them the frames of a list, and for how many more entries
/// there is room.
#[derive(Drop)]
pub struct DriverLog {
    frames: FrameArena,
    spans: Vec<FrameSpan>,
    room: usize,
}

impl Model for DriverLog {
    ghost use Rattle.driver_log.specs.Log.{LogView};

    ghost Value = { LogView };

    ghost use Rattle.driver_log.specs.Inside.{log_view, IsLog};

    ghost view = { log_view };

    ghost invariant = { IsLog };
}

fn push_list(frames: &mut FrameArena, list: &BufferList) -> FrameSpan
    requires frame_room { length list.now.frames ≤ frames.old.frame_room }
    requires byte_room { sum_by length list.now.frames ≤ frames.old.byte_room }
    ensures frames { frames.new.frames ≡ frames.old.frames ++ list.now.frames }
    ensures within { SpanWithin frames.new.frames result }
    ensures shown { frames_at frames.new.frames result ≡ list.now.frames }
    ensures frame_room { frames.new.frame_room + length list.now.frames ≡ frames.old.frame_room }
    ensures byte_room { frames.new.byte_room + sum_by length list.now.frames ≡ frames.old.byte_room }
{
    let first = frames.count();
    for i in 0..list.buffers() {
        frames.push_frame_reserved(list.frame(i).data());
    }
    frames.span_from(first)
}

impl DriverLog {
    /// An empty log. It takes no memory.
    pub fn make(alloc: Global) -> DriverLog
        ensures { result ≡ record { entries = []; room = 0 } }
    {
        DriverLog {
            frames: FrameArena::make(alloc),
            spans: Vec::new(alloc),
            room: 0,
        }
    }

    /// Makes room for one more entry.
    pub fn make_room(&mut self) -> Result<(), OutOfMemory>
        ensures entries { self.new.entries ≡ self.old.entries }
        ensures room { OnOk result (1 ≤ self.new.room) }
    {
        if self.room == 0 {
            self.frames.make_room(FRAMES, BYTES)?;
            self.spans.reserve(1)?;
            self.room = 1;
        }
        Ok(())
    }

    /// Adds the frames of a list, for which there is room. It takes no memory.
    pub fn push(&mut self, list: &BufferList)
        requires room { 1 ≤ self.old.room }
        requires fits { Fits list.now.frames 1518 }
        ensures { self.new ≡ record { entries = self.old.entries ++ list.now.frames ∷ []; room = self.old.room - 1 } }
    {
        let span = push_list(&mut self.frames, list);
        self.spans.push_reserved(span);
        self.room -= 1;
    }

    /// How many entries there are.
    pub fn len(&self) -> usize
        ensures { result ≡ length self.now.entries }
    {
        self.spans.len()
    }

    /// A frame of an entry.
    pub fn frame(&self, list: usize, buffer: usize) -> &[u8]
        requires list { list < length self.now.entries }
        requires buffer { buffer < length (slice_index_or self.now.entries list []) }
        ensures { result.now ≡ slice_index_or (slice_index_or self.now.entries list []) buffer [] }
    {
        let _count = self.frames.count();
        let span = self.spans[list];
        self.frames.frame(span.first + buffer)
    }
}
