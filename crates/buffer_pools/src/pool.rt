//! A pool makes and frees lists.
ghost use Rattle.std.specs.Prelude.{◌≡◌, ℕ, ◌+◌, ◌≤◌, ◌<◌, ◌↔◌, [], length, None, Some, IfOk, OnErr, IsErr, All};
ghost use Rattle.slab.specs.Slab.{HasRoomFor};
ghost use Rattle.buffer_pools.specs.Views.{PoolView, ListView, Fits, live_count, IsOf, Issues, Frees};
ghost use Rattle.buffer_pools.specs.Inside.{Enters};

use crate::image::Image;
use crate::label::Label;
use crate::list::BufferList;
use crate::slot::Slot;
use crate::space::Space;
use ndis_base::{Frame, OutOfMemory};
use slab::Slab;
use std::alloc::Global;
use std::marker::Model;
use thiserror::Error;

/// All lists of the pool are live.
#[derive(Clone, Copy, Debug, PartialEq, Eq, Error)]
#[error("all lists of the pool are live")]
pub struct NoList;

/// A pool of a fixed number of lists, each with room for eight frames of a fixed number of bytes.
#[derive(Drop)]
pub struct ListPool {
    spare: Vec<Space>,
    live: Slab<Slot>,
    size: usize,
    bytes: usize,
}

impl Model for ListPool {
    ghost use Rattle.buffer_pools.specs.Views.{PoolView};

    ghost Value = { PoolView };

    ghost use Rattle.buffer_pools.specs.Inside.{pool_view, IsSound};

    ghost view = { pool_view };

    ghost invariant = { IsSound };
}

impl ListPool {
    /// A pool of so many lists, none of them live. It takes all memory of the pool; no other call
    /// takes any.
    pub fn make(alloc: Global, lists: usize, bytes: usize) -> Result<ListPool, OutOfMemory>
        ensures { IfOk result (λ p. p ≡ record { size = lists; bytes = bytes; slots = [] }) }
    {
        let mut spare = Vec::with_capacity(alloc, lists)?;
        for _ in 0..lists {
            spare.push(Space::make(alloc, bytes)?)?;
        }
        let live = Slab::with_capacity(alloc, lists)?;
        Ok(ListPool {
            spare,
            live,
            size: lists,
            bytes,
        })
    }

    /// How many lists the pool has, live and not.
    pub fn size(&self) -> usize
        ensures { result ≡ self.now.size }
    {
        self.size
    }

    /// The most bytes of a frame.
    pub fn bytes(&self) -> usize
        ensures { result ≡ self.now.bytes }
    {
        self.bytes
    }

    /// How many lists are live.
    pub fn live(&self) -> usize
        ensures count { result ≡ live_count self.now }
        ensures within { live_count self.now ≤ self.now.size }
    {
        self.live.len()
    }

    /// Makes a list with this label and these frames. After `NoList` the pool is as before.
    pub fn issue(&mut self, label: Label, frames: &[Frame]) -> Result<BufferList, NoList>
        requires { Fits frames.now self.old.bytes }
        ensures label { IfOk result (λ l. l.label ≡ label) }
        ensures frames { IfOk result (λ l. l.frames ≡ frames.now) }
        ensures issues { IfOk result (λ l. Issues self.old l self.new) }
        ensures no_list { IsErr result ↔ (live_count self.old ≡ self.old.size) }
        ensures unchanged { OnErr result (self.new ≡ self.old) }
    {
        match self.spare.pop() {
            Some(mut space) => {
                space.fill(frames);
                Ok(enter(&mut self.live, label, space))
            }
            None => Err(NoList),
        }
    }

    /// Makes a list with this label and the frames of another list. After `NoList` the pool is as
    /// before.
    pub fn clone_of(&mut self, label: Label, list: &BufferList) -> Result<BufferList, NoList>
        requires { All (λ f. length f ≤ self.old.bytes) list.now.frames }
        ensures label { IfOk result (λ l. l.label ≡ label) }
        ensures frames { IfOk result (λ l. l.frames ≡ list.now.frames) }
        ensures issues { IfOk result (λ l. Issues self.old l self.new) }
        ensures no_list { IsErr result ↔ (live_count self.old ≡ self.old.size) }
        ensures unchanged { OnErr result (self.new ≡ self.old) }
    {
        match self.spare.pop() {
            Some(mut space) => {
                space.fill_from(&list.space);
                Ok(enter(&mut self.live, label, space))
            }
            None => Err(NoList),
        }
    }

    /// Takes back a list of this pool.
    pub fn free(&mut self, list: BufferList)
        requires { IsOf self.old list }
        ensures { Frees self.old list self.new }
    {
        let BufferList {
            label: _,
            space,
            slot,
        } = list;
        let _slot = self.live.remove(slot);
        self.spare.push_reserved(space);
    }
}

fn enter(live: &mut Slab<Slot>, label: Label, space: Space) -> BufferList
    requires room { HasRoomFor live.old 1 }
    requires fits { Fits space.frames space.bytes }
    ensures label { result.label ≡ label }
    ensures frames { result.frames ≡ space.frames }
    ensures bytes { result.bytes ≡ space.bytes }
    ensures enters { Enters live.old result live.new }
{
    let image = Image::of(&space);
    let slot = live.insert_reserved(Slot { label, image });
    BufferList { label, space, slot }
}
