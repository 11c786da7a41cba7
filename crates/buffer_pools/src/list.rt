//! A list of frames, which must be spent.
ghost use Rattle.std.specs.Prelude.{◌≡◌, ℕ, ◌<◌, [], length, slice_index_or};
ghost use Rattle.net_buffer.specs.Buffer.{data_of};
ghost use Rattle.buffer_pools.specs.Views.{Fits};

use crate::label::Label;
use crate::space::Space;
use ndis_base::{ConfigNo, Direction, ListNo, ModuleId, Origin};
use net_buffer::NetBuffer;
use std::marker::Model;

/// A list: its label, and 1 to 8 frames, one in each buffer, which never change. Only a pool makes
/// and frees one.
pub struct BufferList {
    pub(crate) label: Label,
    pub(crate) space: Space,
    pub(crate) slot: usize,
}

impl Model for BufferList {
    ghost use Rattle.buffer_pools.specs.Views.{ListView, Fits};

    ghost Value = { ListView };

    ghost view = { λ l. record { label = l.label; frames = l.space.frames; bytes = l.space.bytes; slot = l.slot } };

    ghost invariant = { λ l. Fits l.space.frames l.space.bytes };
}

impl BufferList {
    pub fn label(&self) -> Label
        ensures { result ≡ self.now.label }
    {
        self.label
    }

    pub fn number(&self) -> ListNo
        ensures { result ≡ self.now.label.number }
    {
        self.label.number
    }

    pub fn owner(&self) -> ModuleId
        ensures { result ≡ self.now.label.owner }
    {
        self.label.owner
    }

    pub fn config(&self) -> ConfigNo
        ensures { result ≡ self.now.label.config }
    {
        self.label.config
    }

    pub fn direction(&self) -> Direction
        ensures { result ≡ self.now.label.direction }
    {
        self.label.direction
    }

    pub fn cancel(&self) -> Option<u32>
        ensures { result ≡ self.now.label.cancel }
    {
        self.label.cancel
    }

    pub fn origin(&self) -> Origin
        ensures { result ≡ self.now.label.origin }
    {
        self.label.origin
    }

    /// How many frames the list has.
    pub fn buffers(&self) -> usize
        ensures count { result ≡ length self.now.frames }
        ensures fits { Fits self.now.frames self.now.bytes }
    {
        self.space.count()
    }

    /// The buffer of a frame, of which the frame is the data.
    pub fn frame(&self, i: usize) -> &NetBuffer
        requires { i < length self.now.frames }
        ensures { data_of result.now ≡ slice_index_or self.now.frames i [] }
    {
        self.space.frame(i)
    }
}

/// A list as a driver keeps it, so that a driver may be dropped. A list that is dropped in this way
/// stays live in its pool.
pub struct KeptList {
    list: BufferList,
}

impl Model for KeptList {
    ghost use Rattle.buffer_pools.specs.Views.{ListView};

    ghost Value = { ListView };

    ghost view = { λ k. k.list };
}

impl KeptList {
    pub fn of(list: BufferList) -> KeptList
        ensures { result ≡ list }
    {
        KeptList { list }
    }

    pub fn into_list(self) -> BufferList
        ensures { result ≡ self }
    {
        let KeptList { list } = self;
        list
    }

    pub fn list(&self) -> &BufferList
        ensures { result.now ≡ self.now }
    {
        &self.list
    }
}

impl Drop for KeptList {
    fn drop(self) {
        let KeptList { list } = self;
        let BufferList {
            label: _,
            space: _,
            slot: _,
        } = list;
    }
}
