//! Which of the lists that modules keep wait: those of which a clone is live, and those that have crossed to
//! another stack.
#![tactic(auto)]

ghost use Rattle.std.specs.Prelude.{◌≡◌, ◌==◌, ◌+◌, ◌-◌, ◌≤◌, ◌++◌, ◌∷◌, [], not, OnOk, OnErr, filter};
ghost use Rattle.std.specs.List.{list_any};
ghost use Rattle.waiting_lists.specs.Waiting.{WaitView, has_original, waits_in, is_other};

use ndis_base::OutOfMemory;
use std::alloc::Global;
use std::marker::Model;

/// The live clones by their numbers, each with the number of its original, and the numbers of the lists
/// that have crossed. Room for further ones is made before.
#[derive(Drop)]
pub struct WaitingLists {
    clones: Vec<(u64, u64)>,
    crossed: Vec<u64>,
    room: usize,
}

impl Model for WaitingLists {
    ghost use Rattle.std.specs.Prelude.{◌+◌, ◌≤◌};
    ghost use Rattle.std.specs.Vec.{vec_len, vec_capacity};
    ghost use Rattle.waiting_lists.specs.Waiting.{WaitView};

    ghost Value = { WaitView };

    ghost view = { λ w. record { clones = w.clones.items; crossed = w.crossed.items; room = w.room } };

    ghost invariant = { λ w. (vec_len w.clones + w.room ≤ vec_capacity w.clones) × (vec_len w.crossed + w.room ≤ vec_capacity w.crossed) };
}

fn has_original(clones: &[(u64, u64)], list: u64) -> bool
    ensures { result ≡ list_any (has_original list) clones.now }
{
    match clones {
        [] => false,
        [clone, others @ ..] => clone.1 == list || has_original(others, list),
    }
}

fn has_number(lists: &[u64], list: u64) -> bool
    ensures { result ≡ list_any (λ m. m == list) lists.now }
{
    match lists {
        [] => false,
        [other, others @ ..] => *other == list || has_number(others, list),
    }
}

impl WaitingLists {
    /// Nothing waits. It takes no memory.
    pub fn make(alloc: Global) -> WaitingLists
        ensures { result ≡ record { clones = []; crossed = []; room = 0 } }
    {
        WaitingLists {
            clones: Vec::new(alloc),
            crossed: Vec::new(alloc),
            room: 0,
        }
    }

    /// Makes room for so many further ones.
    pub fn make_room(&mut self, room: usize) -> Result<(), OutOfMemory>
        ensures same { self.new ≡ record self.old { room = self.new.room } }
        ensures made { OnOk result (room ≤ self.new.room) }
        ensures kept { self.old.room ≤ self.new.room }
    {
        if self.room < room {
            self.clones.reserve(room)?;
            self.crossed.reserve(room)?;
            self.room = room;
        }
        Ok(())
    }

    /// Whether a list waits.
    pub fn waits(&self, list: u64) -> bool
        ensures { result ≡ waits_in self.now list }
    {
        has_number(self.crossed.as_slice(), list) || has_original(self.clones.as_slice(), list)
    }

    /// A clone is issued. It takes room for one.
    pub fn push_clone(&mut self, clone: u64, original: u64)
        requires { 1 ≤ self.old.room }
        ensures { self.new ≡ record self.old { clones = self.old.clones ++ (clone, original) ∷ []; room = self.old.room - 1 } }
    {
        self.clones.push_reserved((clone, original));
        self.room -= 1;
    }

    /// A list crosses. It takes room for one.
    pub fn push_crossed(&mut self, list: u64)
        requires { 1 ≤ self.old.room }
        ensures { self.new ≡ record self.old { crossed = self.old.crossed ++ list ∷ []; room = self.old.room - 1 } }
    {
        self.crossed.push_reserved(list);
        self.room -= 1;
    }

    /// A list is on its way again, and no longer with the other stack.
    pub fn take_back(&mut self, list: u64)
        ensures { self.new ≡ record self.old { crossed = filter (λ m. not (m == list)) self.old.crossed } }
    {
        self.crossed.retain(|other| *other != list);
    }

    /// A list is home.
    pub fn go_home(&mut self, list: u64)
        ensures { self.new ≡ record self.old { clones = filter (is_other list) self.old.clones; crossed = filter (λ m. not (m == list)) self.old.crossed } }
    {
        self.clones.retain(|clone| clone.0 != list);
        self.crossed.retain(|other| *other != list);
    }
}
