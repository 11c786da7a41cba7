//! The space that a program writes its frame into.
ghost use Rattle.std.specs.Prelude.{◌≡◌, ◌+◌, ◌<◌, ◌≤◌, ◌++◌, [], IfOk, length, take, drop, slice_set, insert, remove};
ghost use Rattle.program_types.specs.Apply.{pushed, popped};

use ndis_base::{Frame, OutOfMemory};
use std::alloc::Global;
use std::marker::Model;

/// A byte space, seen as its room in bytes and the bytes in it up to its length.
#[derive(Drop)]
pub struct NetSpace {
    bytes: Vec<u8>,
}

impl Model for NetSpace {
    ghost use Rattle.std.specs.Vec.{vec_capacity};
    ghost use Rattle.frame_rules.specs.Space.{Space};

    ghost Value = { Space };

    ghost view = { λ s. record { room = vec_capacity s.bytes; bytes = s.bytes.items } };
}

impl NetSpace {
    /// A space of this room and length 0. It takes all the memory that the space will need.
    pub fn make(alloc: Global, room: usize) -> Result<NetSpace, OutOfMemory>
        ensures room { IfOk result (λ s. s.room ≡ room) }
        ensures empty { IfOk result (λ s. s.bytes ≡ []) }
    {
        Ok(NetSpace {
            bytes: Vec::with_capacity(alloc, room)?,
        })
    }

    /// The bytes up to the length.
    pub fn bytes(&self) -> &[u8]
        ensures { result.now ≡ self.now.bytes }
    {
        self.bytes.as_slice()
    }

    /// The frame of the bytes up to the length, which it is without a copy.
    pub fn into_frame(self) -> Frame
        ensures { result ≡ self.bytes }
    {
        Frame::of(self.bytes)
    }

    /// Holds these bytes alone.
    pub fn fill(&mut self, bytes: &[u8])
        requires { length bytes.now ≤ self.old.room }
        ensures bytes { self.new.bytes ≡ bytes.now }
        ensures room { self.new.room ≡ self.old.room }
    {
        self.bytes.clear();
        for byte in bytes {
            self.bytes.push_reserved(*byte);
        }
    }

    // Puts a byte in at offset 12.
    fn put_in(&mut self, value: u8)
        requires long { 12 ≤ length self.old.bytes }
        requires room { length self.old.bytes < self.old.room }
        ensures bytes { self.new.bytes ≡ insert self.old.bytes 12 value }
        ensures len { length self.new.bytes ≡ length self.old.bytes + 1 }
        ensures room { self.new.room ≡ self.old.room }
    {
        match self.bytes.insert(12, value) {
            Ok(()) => {}
            Err(_) => unreachable!(),
        }
    }

    // Takes the byte at offset 12 out.
    fn take_out(&mut self)
        requires { 12 < length self.old.bytes }
        ensures bytes { self.new.bytes ≡ remove self.old.bytes 12 }
        ensures len { length self.new.bytes + 1 ≡ length self.old.bytes }
        ensures room { self.new.room ≡ self.old.room }
    {
        let _byte = self.bytes.remove(12);
    }

    /// Puts a VLAN tag in at offset 12.
    pub fn push_tag(&mut self, control: u16)
        requires long { 12 ≤ length self.old.bytes }
        requires room { length self.old.bytes + 4 ≤ self.old.room }
        ensures bytes { self.new.bytes ≡ pushed control self.old.bytes }
        ensures len { length self.new.bytes ≡ length self.old.bytes + 4 }
        ensures room { self.new.room ≡ self.old.room }
    {
        self.put_in((control % 256) as u8);
        self.put_in((control / 256) as u8);
        self.put_in(0x00);
        self.put_in(0x81);
    }

    /// Takes the bytes 12 to 15 out.
    pub fn pop_tag(&mut self)
        requires { 16 ≤ length self.old.bytes }
        ensures bytes { self.new.bytes ≡ popped self.old.bytes }
        ensures len { length self.new.bytes + 4 ≡ length self.old.bytes }
        ensures room { self.new.room ≡ self.old.room }
    {
        self.take_out();
        self.take_out();
        self.take_out();
        self.take_out();
    }

    /// Replaces the byte at an offset.
    pub fn set_byte(&mut self, at: usize, value: u8)
        requires { at < length self.old.bytes }
        ensures bytes { self.new.bytes ≡ slice_set self.old.bytes at value }
        ensures len { length self.new.bytes ≡ length self.old.bytes }
        ensures room { self.new.room ≡ self.old.room }
    {
        self.bytes[at] = value;
    }

    /// Replaces the six bytes from offset 0 on.
    pub fn set_first_six(&mut self, six: &[u8; 6])
        requires { 12 ≤ length self.old.bytes }
        ensures bytes { self.new.bytes ≡ six.now ++ drop 6 self.old.bytes }
        ensures len { length self.new.bytes ≡ length self.old.bytes }
        ensures room { self.new.room ≡ self.old.room }
    {
        self.bytes[0..6].copy_from_slice(six);
    }

    /// Replaces the six bytes from offset 6 on.
    pub fn set_next_six(&mut self, six: &[u8; 6])
        requires { 12 ≤ length self.old.bytes }
        ensures bytes { self.new.bytes ≡ take 6 self.old.bytes ++ (six.now ++ drop 12 self.old.bytes) }
        ensures len { length self.new.bytes ≡ length self.old.bytes }
        ensures room { self.new.room ≡ self.old.room }
    {
        self.bytes[6..12].copy_from_slice(six);
    }
}
