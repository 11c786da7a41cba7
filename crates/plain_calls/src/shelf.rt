//! Which of the handed-in drivers stands for each filter.
ghost use Rattle.std.specs.Prelude.{◌≡◌, ◌+◌, IfOk, OnOk, find};
ghost use Rattle.journal_types.specs.declared.PhaseOf.TheVariants as of;
ghost use Rattle.journal_types.specs.declared.Row.TheVariants as row;
ghost use Rattle.promise_rules.specs.Drivers.{with_place, is_of_kind, without_place, taken_from, taken_for, shelf_told, driver_of, shelf_at, shelf_in_rows, shelf_in_turns, places_from, shelf_of};

use crate::kinds::same_filter_kind;
use journal_types::{Event, PhaseOf, Reply, Row, Turn};
use ndis_base::{FilterKind, ModuleId, ModuleState, OutOfMemory};
use std::alloc::Global;
use std::marker::Model;

/// The places of the filters' drivers that stand on the shelf, in order, and the place of the one that each
/// filter has or had.
#[derive(Drop)]
pub struct PlainShelf {
    alloc: Global,
    places: Vec<usize>,
    drivers: Vec<(u64, usize)>,
}

impl Model for PlainShelf {
    ghost use Rattle.promise_rules.specs.Drivers.{Shelf};

    ghost Value = { Shelf };

    ghost view = { λ s. record { places = s.places.items; drivers = s.drivers.items } };
}

fn is_of_kind(kind: FilterKind, kinds: &[FilterKind], place: usize) -> bool
    ensures { result ≡ is_of_kind kind kinds.now place }
{
    match kinds.get(place) {
        Some(found) => same_filter_kind(*found, kind),
        None => false,
    }
}

fn first_of_kind(kind: FilterKind, kinds: &[FilterKind], places: &[usize]) -> Option<usize>
    ensures { result ≡ find (is_of_kind kind kinds.now) places.now }
{
    match places {
        [] => None,
        [place, others @ ..] => {
            if is_of_kind(kind, kinds, *place) {
                Some(*place)
            } else {
                first_of_kind(kind, kinds, others)
            }
        }
    }
}

fn without_place(alloc: Global, place: usize, places: &[usize]) -> Result<Vec<usize>, OutOfMemory>
    ensures { IfOk result (λ others. others.items ≡ without_place place places.now) }
{
    match places {
        [] => Ok(Vec::new(alloc)),
        [p, rest @ ..] => {
            let mut others = without_place(alloc, place, rest)?;
            if *p != place {
                others.insert(0, *p)?;
            }
            Ok(others)
        }
    }
}

fn driver_of(drivers: &[(u64, usize)], f: u64) -> Option<usize>
    ensures { result ≡ driver_of drivers.now f }
{
    match drivers {
        [] => None,
        [driver, others @ ..] => {
            if driver.0 == f {
                Some(driver.1)
            } else {
                driver_of(others, f)
            }
        }
    }
}

impl PlainShelf {
    /// The places on the shelf, in order.
    pub fn places(&self) -> &[usize]
        ensures { result.now ≡ self.now.places }
    {
        self.places.as_slice()
    }

    /// The place of the driver of each filter that is or was attached.
    pub fn drivers(&self) -> &[(u64, usize)]
        ensures { result.now ≡ self.now.drivers }
    {
        self.drivers.as_slice()
    }

    fn take(&mut self, f: u64, place: Option<usize>) -> Result<(), OutOfMemory>
        ensures { OnOk result (self.new ≡ taken_from f self.old place) }
    {
        match place {
            None => Ok(()),
            Some(place) => {
                self.places = without_place(self.alloc, place, self.places.as_slice())?;
                self.drivers.push((f, place))?;
                Ok(())
            }
        }
    }

    fn take_for(
        &mut self,
        f: u64,
        kind: FilterKind,
        kinds: &[FilterKind],
    ) -> Result<(), OutOfMemory>
        ensures { OnOk result (self.new ≡ taken_for f kind kinds.now self.old) }
    {
        let place = first_of_kind(kind, kinds, self.places.as_slice());
        self.take(f, place)
    }

    fn tell(
        &mut self,
        kinds: &[FilterKind],
        event: &Event,
        reply: &Reply,
    ) -> Result<(), OutOfMemory>
        ensures { OnOk result (self.new ≡ shelf_told kinds.now event.now reply.now self.old) }
    {
        match event {
            Event::Insert { kind, .. } => match reply {
                Reply::Inserted { filter } => self.take_for(*filter, *kind, kinds),
                _ => Ok(()),
            },
            Event::Replace { kind, .. } => match reply {
                Reply::Replaced { filter } => self.take_for(*filter, *kind, kinds),
                _ => Ok(()),
            },
            _ => Ok(()),
        }
    }

    fn put_back(&mut self, place: Option<usize>) -> Result<(), OutOfMemory>
        ensures { OnOk result (self.new ≡ record self.old { places = with_place self.old.places place }) }
    {
        if let Some(place) = place {
            self.places.push(place)?;
        }
        Ok(())
    }

    fn note_state(&mut self, m: ModuleId, s: ModuleState) -> Result<(), OutOfMemory>
        ensures { OnOk result (self.new ≡ shelf_at (row.Phase (of.Module m s)) self.old) }
    {
        match m {
            ModuleId::Filter(f) => match s {
                ModuleState::Detached => {
                    let place = driver_of(self.drivers.as_slice(), f);
                    self.put_back(place)
                }
                _ => Ok(()),
            },
            _ => Ok(()),
        }
    }

    fn note(&mut self, row: &Row) -> Result<(), OutOfMemory>
        ensures { OnOk result (self.new ≡ shelf_at row.now self.old) }
    {
        match row {
            Row::Phase { of } => match *of {
                PhaseOf::Module(m, s) => self.note_state(m, s),
                PhaseOf::Stack(_) => Ok(()),
            },
            _ => Ok(()),
        }
    }
}

fn note_rows(shelf: &mut PlainShelf, rows: &[Row]) -> Result<(), OutOfMemory>
    ensures { OnOk result (shelf.new ≡ shelf_in_rows rows.now shelf.old) }
{
    match rows {
        [] => Ok(()),
        [row, others @ ..] => {
            shelf.note(row)?;
            note_rows(shelf, others)
        }
    }
}

fn note_turns(
    shelf: &mut PlainShelf,
    kinds: &[FilterKind],
    turns: &[Turn],
) -> Result<(), OutOfMemory>
    ensures { OnOk result (shelf.new ≡ shelf_in_turns kinds.now turns.now shelf.old) }
{
    match turns {
        [] => Ok(()),
        [turn, others @ ..] => {
            shelf.tell(kinds, &turn.event, &turn.reply)?;
            note_rows(shelf, turn.rows.items())?;
            note_turns(shelf, kinds, others)
        }
    }
}

/// The next place. One past the greatest counts as want of memory.
fn next_place(place: usize) -> Result<usize, OutOfMemory>
    ensures { IfOk result (λ next. next ≡ place + 1) }
{
    if place < usize::MAX {
        Ok(place + 1)
    } else {
        Err(OutOfMemory)
    }
}

fn places_from(alloc: Global, place: usize, kinds: &[FilterKind]) -> Result<Vec<usize>, OutOfMemory>
    ensures { IfOk result (λ places. places.items ≡ places_from place kinds.now) }
{
    match kinds {
        [] => Ok(Vec::new(alloc)),
        [_, others @ ..] => {
            let mut places = places_from(alloc, next_place(place)?, others)?;
            places.insert(0, place)?;
            Ok(places)
        }
    }
}

/// The shelf after a journal. Before its first turn all filters' drivers, of which these are the kinds, stand on
/// the shelf, in the order in which they were handed in.
pub fn shelf_of(
    alloc: Global,
    kinds: &[FilterKind],
    turns: &[Turn],
) -> Result<PlainShelf, OutOfMemory>
    ensures { IfOk result (λ shelf. shelf ≡ shelf_of kinds.now turns.now) }
{
    let mut shelf = PlainShelf {
        alloc,
        places: places_from(alloc, 0, kinds)?,
        drivers: Vec::new(alloc),
    };
    note_turns(&mut shelf, kinds, turns)?;
    Ok(shelf)
}
