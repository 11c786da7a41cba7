//! The buffers of one list.
ghost use Rattle.std.specs.Prelude.{◌≡◌, ℕ, ◌≤◌, ◌<◌, [], length, IfOk, slice_index_or, All};
ghost use Rattle.net_buffer.specs.Buffer.{data_of};

use ndis_base::{Frame, OutOfMemory};
use net_buffer::NetBuffer;
use std::alloc::Global;
use std::marker::Model;

/// The most frames that a list has.
pub const FRAMES: usize = 8;

/// Eight buffers, of which the first hold frames.
#[derive(Drop)]
pub struct Space {
    buffers: Vec<NetBuffer>,
    used: usize,
    bytes: usize,
}

impl Model for Space {
    ghost use Rattle.std.specs.Prelude.{◌≡◌, ◌≤◌, All, take, map, length};
    ghost use Rattle.net_buffer.specs.Buffer.{data_of};
    ghost use Rattle.buffer_pools.specs.Views.{SpaceView};

    ghost Value = { SpaceView };

    ghost view = { λ s. record { frames = map data_of (take s.used s.buffers.items); bytes = s.bytes } };

    ghost invariant = { λ s. (s.used ≤ 8) × (length s.buffers.items ≡ 8) × All (λ b. length b.bytes ≡ s.bytes) s.buffers.items };
}

impl Space {
    pub fn make(alloc: Global, bytes: usize) -> Result<Space, OutOfMemory>
        ensures { IfOk result (λ s. s.bytes ≡ bytes) }
    {
        let mut buffers = Vec::with_capacity(alloc, FRAMES)?;
        for _ in 0..FRAMES {
            buffers.push(NetBuffer::make(alloc, bytes)?)?;
        }
        Ok(Space {
            buffers,
            used: 0,
            bytes,
        })
    }

    pub fn count(&self) -> usize
        ensures count { result ≡ length self.now.frames }
        ensures few { result ≤ 8 }
    {
        self.used
    }

    pub fn frame(&self, i: usize) -> &NetBuffer
        requires { i < length self.now.frames }
        ensures { data_of result.now ≡ slice_index_or self.now.frames i [] }
    {
        &self.buffers[i]
    }

    pub fn fill(&mut self, frames: &[Frame])
        requires few { length frames.now ≤ 8 }
        requires short { All (λ f. length f ≤ self.old.bytes) frames.now }
        ensures frames { self.new.frames ≡ frames.now }
        ensures bytes { self.new.bytes ≡ self.old.bytes }
    {
        for (i, frame) in frames.iter().enumerate() {
            self.buffers[i].place(0, frame.bytes());
        }
        self.used = frames.len();
    }

    pub fn fill_from(&mut self, other: &Space)
        requires { All (λ f. length f ≤ self.old.bytes) other.now.frames }
        ensures frames { self.new.frames ≡ other.now.frames }
        ensures bytes { self.new.bytes ≡ self.old.bytes }
    {
        let count = other.count();
        for i in 0..count {
            self.buffers[i].place(0, other.frame(i).data());
        }
        self.used = count;
    }
}
