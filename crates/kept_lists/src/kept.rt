//! Kept lists, as a driver has them.
ghost use Rattle.std.specs.Prelude.{◌≡◌, ◌+◌, ◌-◌, ◌≤◌, ◌++◌, ◌∷◌, [], None, Some, IfOk, OnOk, length, ℕ, All};
ghost use Rattle.buffer_pools.specs.Views.{ListView};
ghost use Rattle.std.specs.VecDeque.{deque_capacity, deque_len};
ghost use Rattle.driver_calls.specs.Rooms.{HasRoomForAll};
ghost use Rattle.driver_calls.specs.Filters.{Cancels, PassesAll};
ghost use Rattle.driver_calls.specs.Protocols.{ReturnsAll};
ghost use Rattle.kept_lists.specs.Kept.{KeptView, TakesFirst, Takes, IsOther, StandsAt};

use crate::emptying::{pass_back_all, pass_on_all, turn_back_all};
use crate::parting::part;
use buffer_pools::{BufferList, KeptList};
use driver_tray::Tray;
use ndis_base::{ListStatus, OutOfMemory};
use std::alloc::Global;
use std::collections::VecDeque;
use std::marker::Model;

/// The lists that a driver keeps, and for how many more it has room. They can be dropped, and then stay
/// live in their pools.
#[derive(Drop)]
pub struct KeptLists {
    kept: VecDeque<KeptList>,
    leaving: VecDeque<KeptList>,
    room: usize,
}

impl Model for KeptLists {
    ghost use Rattle.kept_lists.specs.Kept.{KeptView};

    ghost Value = { KeptView };

    ghost use Rattle.kept_lists.specs.Inside.{kept_view, IsKept};

    ghost view = { kept_view };

    ghost invariant = { IsKept };
}

fn place_of(kept: &VecDeque<KeptList>, list: u64) -> Option<usize>
    ensures none { result ≡ None → All (IsOther list) kept.now.items }
    ensures some { (place : ℕ) → result ≡ Some place → StandsAt list kept.now.items place }
{
    for i in 0..kept.len() {
        if let Some(other) = kept.get(i) {
            if other.list().number().0 == list {
                return Some(i);
            }
        }
    }
    None
}

impl KeptLists {
    /// No list, and no room for any. It takes no memory.
    pub fn empty(alloc: Global) -> KeptLists
        ensures { result ≡ record { lists = []; room = 0 } }
    {
        KeptLists {
            kept: VecDeque::new(alloc),
            leaving: VecDeque::new(alloc),
            room: 0,
        }
    }

    /// No list, and room for so many.
    pub fn make(alloc: Global, room: usize) -> Result<KeptLists, OutOfMemory>
        ensures { IfOk result (λ k. k ≡ record { lists = []; room = room }) }
    {
        Ok(KeptLists {
            kept: VecDeque::with_capacity(alloc, room)?,
            leaving: VecDeque::with_capacity(alloc, room)?,
            room,
        })
    }

    /// How many lists are kept.
    pub fn len(&self) -> usize
        ensures { result ≡ length self.now.lists }
    {
        self.kept.len()
    }

    /// For how many more lists there is room.
    pub fn room(&self) -> usize
        ensures { result ≡ self.now.room }
    {
        self.room
    }

    /// Makes room for one more list.
    pub fn make_room(&mut self) -> Result<(), OutOfMemory>
        ensures lists { self.new.lists ≡ self.old.lists }
        ensures room { OnOk result (1 ≤ self.new.room) }
    {
        if self.room == 0 {
            self.kept.reserve(1)?;
            let more = self.kept.len() + 1;
            self.leaving.reserve(more)?;
            self.room = 1;
        }
        Ok(())
    }

    /// Keeps a list, the youngest. It takes no memory.
    pub fn push(&mut self, list: BufferList)
        requires { 1 ≤ self.old.room }
        ensures { self.new ≡ record { lists = self.old.lists ++ list ∷ []; room = self.old.room - 1 } }
    {
        self.kept.push_back_reserved(KeptList::of(list));
        self.room -= 1;
    }

    /// Takes the oldest list.
    pub fn take_first(&mut self) -> Option<BufferList>
        ensures none { result ≡ None → (self.old.lists ≡ []) × (self.new ≡ self.old) }
        ensures some { (l : ListView) → result ≡ Some l → TakesFirst self.old l self.new }
    {
        match self.kept.pop_front() {
            Some(list) => {
                self.room += 1;
                Some(list.into_list())
            }
            None => None,
        }
    }

    /// Takes the list of a number.
    pub fn take(&mut self, list: u64) -> Option<BufferList>
        ensures { Takes self.old list result self.new }
    {
        let place = place_of(&self.kept, list)?;
        match self.kept.remove(place) {
            Some(list) => {
                self.room += 1;
                Some(list.into_list())
            }
            None => unreachable!(),
        }
    }

    /// Turns back the ready sends of an identifier, the oldest first.
    pub fn cancel(&mut self, id: u32, tray: &mut Tray)
        requires { HasRoomForAll self.old.lists tray.old }
        ensures cancels { Cancels self.old.lists id tray.old self.new.lists tray.new }
        ensures all { length self.new.lists + self.new.room ≡ length self.old.lists + self.old.room }
    {
        part(&mut self.kept, &mut self.leaving, tray, Some(id));
        self.room += self.leaving.len();
        turn_back_all(&mut self.leaving, ListStatus::Aborted, tray);
    }

    /// Passes all ready lists on, the oldest first.
    pub fn pass_on(&mut self, tray: &mut Tray)
        requires { HasRoomForAll self.old.lists tray.old }
        ensures { PassesAll self.old.lists tray.old self.new.lists tray.new }
    {
        part(&mut self.kept, &mut self.leaving, tray, None);
        self.room += self.leaving.len();
        pass_on_all(&mut self.leaving, tray);
    }

    /// Passes all ready lists homewards, the oldest first.
    pub fn pass_back(&mut self, tray: &mut Tray)
        requires { HasRoomForAll self.old.lists tray.old }
        ensures { ReturnsAll self.old.lists tray.old self.new.lists tray.new }
    {
        part(&mut self.kept, &mut self.leaving, tray, None);
        self.room += self.leaving.len();
        pass_back_all(&mut self.leaving, ListStatus::Success, tray);
    }
}
