//! The journal of a stack.
ghost use Rattle.std.specs.Prelude.{◌≡◌, ◌+◌, ◌≤◌, ◌++◌, ◌∷◌, [], OnOk, OnErr, length};
ghost use Rattle.journal_store.specs.Sizes.{turn_bytes};

use crate::sizes::bytes_of_turn;
use journal_types::{StackHead, Turn};
use ndis_base::OutOfMemory;
use std::alloc::Global;
use std::marker::Model;

/// The turns that a stack of this head has had. Room for further turns is made before they are
/// added: room for their rows, and for the bytes of the frames in them.
#[derive(Drop)]
pub struct Journal {
    head: StackHead,
    turns: Vec<Turn>,
    row_room: usize,
    byte_room: usize,
}

impl Model for Journal {
    ghost use Rattle.std.specs.Prelude.{◌+◌, ◌≤◌};
    ghost use Rattle.std.specs.Vec.{vec_capacity, vec_len};
    ghost use Rattle.journal_store.specs.Written.{Written};

    ghost Value = { Written };

    ghost view = { λ j. record { head = j.head; turns = j.turns.items; row_room = j.row_room; byte_room = j.byte_room } };

    ghost invariant = { λ j. vec_len j.turns + j.row_room ≤ vec_capacity j.turns };
}

impl Journal {
    /// A journal without turns, and without room for any. It takes no memory.
    pub fn make(alloc: Global, head: StackHead) -> Journal
        ensures head { result.head ≡ head }
        ensures turns { result.turns ≡ [] }
        ensures rows { result.row_room ≡ 0 }
        ensures bytes { result.byte_room ≡ 0 }
    {
        Journal {
            head,
            turns: Vec::new(alloc),
            row_room: 0,
            byte_room: 0,
        }
    }

    pub fn head(&self) -> &StackHead
        ensures { result.now ≡ self.now.head }
    {
        &self.head
    }

    pub fn turns(&self) -> &[Turn]
        ensures { result.now ≡ self.now.turns }
    {
        self.turns.as_slice()
    }

    /// Makes room for so many rows, and for frames of so many bytes.
    pub fn make_room(&mut self, rows: usize, bytes: usize) -> Result<(), OutOfMemory>
        ensures head { self.new.head ≡ self.old.head }
        ensures turns { self.new.turns ≡ self.old.turns }
        ensures rows { OnOk result (rows ≤ self.new.row_room) }
        ensures bytes { OnOk result (bytes ≤ self.new.byte_room) }
        ensures unchanged { OnErr result (self.new ≡ self.old) }
    {
        if self.row_room < rows {
            self.turns.reserve(rows)?;
            self.row_room = rows;
        }
        self.byte_room = self.byte_room.max(bytes);
        Ok(())
    }

    /// Adds a turn, for which there is room. It takes no memory.
    pub fn push_in_room(&mut self, turn: Turn)
        requires rows { length turn.rows + 1 ≤ self.old.row_room }
        requires bytes { turn_bytes turn ≤ self.old.byte_room }
        ensures head { self.new.head ≡ self.old.head }
        ensures turns { self.new.turns ≡ self.old.turns ++ turn ∷ [] }
        ensures rows { self.new.row_room + length turn.rows + 1 ≡ self.old.row_room }
        ensures bytes { self.new.byte_room + turn_bytes turn ≡ self.old.byte_room }
    {
        let byte_room = self.byte_room;
        let rows = turn.rows.items().len() + 1;
        let bytes = bytes_of_turn(&turn);
        self.turns.push_reserved(turn);
        self.row_room -= rows;
        self.byte_room = byte_room - bytes;
    }

    /// The head and the turns.
    pub fn into_parts(self) -> (StackHead, Vec<Turn>)
        ensures head { result.0 ≡ self.head }
        ensures turns { result.1.items ≡ self.turns }
    {
        let Journal {
            head,
            turns,
            row_room: _,
            byte_room: _,
        } = self;
        (head, turns)
    }
}
