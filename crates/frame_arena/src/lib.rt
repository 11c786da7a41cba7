//! The bytes of many frames in one vector, and spans of such frames.
#![tactic(auto)]

ghost use Rattle.std.specs.Prelude.{◌≡◌, ◌-◌, ◌<◌, ◌≤◌, ◌++◌, ◌∷◌, [], OnOk, length, drop, slice_index_or, sum_by};
ghost use Rattle.frame_arena.specs.Spans.{frames_at, SpanWithin};

use ndis_base::{Frame, OutOfMemory};
use std::alloc::Global;
use std::marker::Model;

/// Frames of an arena that stand beside each other.
#[derive(Clone, Copy, PartialEq, Eq)]
pub struct FrameSpan {
    pub first: usize,
    pub count: usize,
}

#[derive(Clone, Copy)]
struct FramePlace {
    start: usize,
    end: usize,
}

/// Frames, with room for further ones, which is made before they are added.
#[derive(Drop)]
pub struct FrameArena {
    bytes: Vec<u8>,
    places: Vec<FramePlace>,
    byte_room: usize,
}

impl Model for FrameArena {
    ghost use Rattle.std.specs.Prelude.{◌-◌, ◌+◌, ◌≤◌, map, All, vec_len, vec_capacity};
    ghost use Rattle.frame_arena.specs.Arena.{ArenaView};

    ghost Value = { ArenaView };

    ghost use Rattle.frame_arena.specs.Places.{bytes_at, PlaceWithin};

    ghost view = { λ a. record { frames = map (bytes_at a.bytes.items) a.places.items; frame_room = vec_capacity a.places - vec_len a.places; byte_room = a.byte_room } };

    ghost invariant = { λ a. All (PlaceWithin a.bytes.items) a.places.items × (vec_len a.bytes + a.byte_room ≤ vec_capacity a.bytes) };
}

impl FrameArena {
    /// An arena without frames. It takes no memory.
    pub fn make(alloc: Global) -> FrameArena
        ensures { result.frames ≡ [] }
    {
        FrameArena {
            bytes: Vec::new(alloc),
            places: Vec::new(alloc),
            byte_room: 0,
        }
    }

    /// Makes room for so many further frames, of so many bytes together.
    pub fn make_room(&mut self, frames: usize, bytes: usize) -> Result<(), OutOfMemory>
        ensures frames { self.new.frames ≡ self.old.frames }
        ensures frame_room { OnOk result (frames ≤ self.new.frame_room) }
        ensures byte_room { OnOk result (bytes ≤ self.new.byte_room) }
        ensures frame_room_kept { self.old.frame_room ≤ self.new.frame_room }
        ensures byte_room_kept { self.old.byte_room ≤ self.new.byte_room }
    {
        self.places.reserve(frames)?;
        if self.byte_room < bytes {
            self.bytes.reserve(bytes)?;
            self.byte_room = bytes;
        }
        Ok(())
    }

    /// How many frames there are.
    pub fn count(&self) -> usize
        ensures { result ≡ length self.now.frames }
    {
        self.places.len()
    }

    /// The bytes of one frame.
    pub fn frame(&self, at: usize) -> &[u8]
        requires { at < length self.now.frames }
        ensures { result.now ≡ slice_index_or self.now.frames at [] }
    {
        let place = self.places[at];
        &self.bytes[place.start..place.end]
    }

    /// Adds a frame, for which there is room. It takes no memory.
    pub fn push_frame_reserved(&mut self, frame: &[u8])
        requires frame_room { 1 ≤ self.old.frame_room }
        requires byte_room { length frame.now ≤ self.old.byte_room }
        ensures frames { self.new.frames ≡ self.old.frames ++ frame.now ∷ [] }
        ensures frame_room { self.new.frame_room ≡ self.old.frame_room - 1 }
        ensures byte_room { self.new.byte_room ≡ self.old.byte_room - length frame.now }
    {
        let start = self.bytes.len();
        match self.bytes.extend_from_slice(frame) {
            Ok(()) => {}
            Err(_) => unreachable!(),
        }
        let place = FramePlace {
            start,
            end: self.bytes.len(),
        };
        self.places.push_reserved(place);
        self.byte_room -= frame.len();
    }

    /// The span of the frames from the number `first` on.
    pub fn span_from(&self, first: usize) -> FrameSpan
        requires { first ≤ length self.now.frames }
        ensures within { SpanWithin self.now.frames result }
        ensures shown { frames_at self.now.frames result ≡ drop first self.now.frames }
    {
        FrameSpan {
            first,
            count: self.count() - first,
        }
    }

    /// Adds frames, for which there is room, and gives their span. It takes no memory.
    #[tactic(auto, using(crate::proofs::Spans::frames_at_added))]
    pub fn push_frames_reserved(&mut self, frames: &[Frame]) -> FrameSpan
        requires frame_room { length frames.now ≤ self.old.frame_room }
        requires byte_room { sum_by length frames.now ≤ self.old.byte_room }
        ensures frames { self.new.frames ≡ self.old.frames ++ frames.now }
        ensures span { result ≡ record { first = length self.old.frames; count = length frames.now } }
        ensures within { SpanWithin self.new.frames result }
        ensures shown { frames_at self.new.frames result ≡ frames.now }
        ensures frame_room { self.new.frame_room ≡ self.old.frame_room - length frames.now }
        ensures byte_room { self.new.byte_room ≡ self.old.byte_room - sum_by length frames.now }
    {
        let first = self.count();
        for frame in frames {
            self.push_frame_reserved(frame.bytes());
        }
        FrameSpan {
            first,
            count: frames.len(),
        }
    }
}
