//! A network buffer: a block of bytes of which a part, the data, is in use (WDK, "NET_BUFFER
//! structure"). The data's begin can be moved into the room before it and back.
#![tactic(auto)]

ghost use Rattle.std.specs.Prelude.{◌≡◌, ◌+◌, ◌-◌, ◌≤◌, ◌<◌, ◌++◌, ◌↔◌, IfOk, OnOk, OnErr, IsErr, IsTrue, length, take, drop, replicate};
ghost use Rattle.net_buffer.specs.Buffer.{data_of, written, Places};

use ndis_base::OutOfMemory;
use std::alloc::Global;
use std::marker::Model;
use thiserror::Error;

/// Before the data there is too little room to retreat.
#[derive(Clone, Copy, Debug, PartialEq, Eq, Error)]
#[error("too little room before the data")]
pub struct NoRoom;

/// The data are too short to advance.
#[derive(Clone, Copy, Debug, PartialEq, Eq, Error)]
#[error("the data are too short")]
pub struct TooFar;

/// A buffer, seen as the bytes of its block, the offset of its data and their length.
#[derive(Drop)]
pub struct NetBuffer {
    block: Vec<u8>,
    offset: usize,
    len: usize,
}

impl Model for NetBuffer {
    ghost use Rattle.std.specs.Prelude.{◌≤◌, ◌+◌, length};
    ghost use Rattle.net_buffer.specs.Buffer.{Block};

    ghost Value = { Block };

    ghost view = { λ b. record { bytes = b.block.items; offset = b.offset; len = b.len } };

    ghost invariant = { λ b. b.offset + b.len ≤ length b.block.items };
}

impl NetBuffer {
    /// A buffer of `room` bytes, all 0, without data. It alone takes memory.
    pub fn make(alloc: Global, room: usize) -> Result<NetBuffer, OutOfMemory>
        ensures { IfOk result (λ b. b ≡ record { bytes = replicate room 0; offset = 0; len = 0 }) }
    {
        Ok(NetBuffer {
            block: vec![in alloc; 0; room]?,
            offset: 0,
            len: 0,
        })
    }

    /// The bytes of the block.
    pub fn room(&self) -> usize
        ensures { result ≡ length self.now.bytes }
    {
        self.block.len()
    }

    /// Where the data begin. They end within the block.
    pub fn offset(&self) -> usize
        ensures offset { result ≡ self.now.offset }
        ensures within { self.now.offset + self.now.len ≤ length self.now.bytes }
    {
        self.offset
    }

    /// The data.
    pub fn data(&self) -> &[u8]
        ensures { result.now ≡ data_of self.now }
    {
        &self.block[self.offset..self.offset + self.len]
    }

    /// How many bytes the data have.
    pub fn len(&self) -> usize
        ensures len { result ≡ self.now.len }
        ensures data { result ≡ length (data_of self.now) }
    {
        self.len
    }

    /// Whether the data have no bytes.
    pub fn is_empty(&self) -> bool
        ensures { IsTrue result ↔ (self.now.len ≡ 0) }
    {
        self.len == 0
    }

    /// Writes the frame at the offset and makes it the data.
    pub fn place(&mut self, offset: usize, frame: &[u8])
        requires { offset + length frame.now ≤ length self.old.bytes }
        ensures { Places self.old offset frame.now self.new }
    {
        write_at(self.block.as_mut_slice(), offset, frame);
        self.offset = offset;
        self.len = frame.len();
    }

    /// Moves the begin of the data back by so many bytes, which are then data again. It changes no
    /// byte of the block, and after `NoRoom` nothing.
    pub fn retreat(&mut self, bytes: usize) -> Result<(), NoRoom>
        ensures moved { OnOk result (self.new ≡ record self.old { offset = self.old.offset - bytes; len = self.old.len + bytes }) }
        ensures no_room { IsErr result ↔ (self.old.offset < bytes) }
        ensures unchanged { OnErr result (self.new ≡ self.old) }
    {
        if self.offset < bytes {
            return Err(NoRoom);
        }
        self.offset -= bytes;
        self.len += bytes;
        Ok(())
    }

    /// Moves the begin of the data forward by so many bytes, which stay in the block. It changes no
    /// byte of the block, and after `TooFar` nothing.
    pub fn advance(&mut self, bytes: usize) -> Result<(), TooFar>
        ensures moved { OnOk result (self.new ≡ record self.old { offset = self.old.offset + bytes; len = self.old.len - bytes }) }
        ensures too_far { IsErr result ↔ (self.old.len < bytes) }
        ensures unchanged { OnErr result (self.new ≡ self.old) }
    {
        if self.len < bytes {
            return Err(TooFar);
        }
        self.offset += bytes;
        self.len -= bytes;
        Ok(())
    }

    /// Writes the data to the front of `out`, leaves the rest of `out`, and answers their length.
    pub fn copy_out(&self, out: &mut [u8]) -> usize
        requires { self.now.len ≤ length out.old }
        ensures out { out.new ≡ data_of self.now ++ drop self.now.len out.old }
        ensures len { result ≡ self.now.len }
    {
        write_at(out, 0, self.data());
        self.len
    }
}

fn write_at(space: &mut [u8], offset: usize, frame: &[u8])
    requires { offset + length frame.now ≤ length space.old }
    ensures { space.new ≡ written space.old offset frame.now }
{
    space[offset..offset + frame.len()].copy_from_slice(frame);
}
