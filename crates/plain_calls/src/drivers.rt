//! How often a journal calls each handed-in driver, through the modules that it stands for.
ghost use Rattle.std.specs.Prelude.{◌≡◌, ◌+◌, IfOk};
ghost use Rattle.plain_calls.specs.ServedAt.{served_through, served_through_bindings, served_through_filters, served_at};

use crate::counts::served;
use crate::places::{miniport_place, protocol_places};
use crate::shelf::shelf_of;
use journal_types::{StackHead, Turn};
use ndis_base::{FilterKind, MiniportKind, ModuleId, OutOfMemory, ProtocolKind};
use plain_parts::rows::sum_of;
use promise_rules::{Called, Place};
use std::alloc::Global;

/// How often the driver at a place is called through a module: never, unless the module's driver has that place.
fn served_through(
    alloc: Global,
    turns: &[Turn],
    at: usize,
    what: Called,
    m: ModuleId,
    driver: Option<usize>,
) -> Result<u64, OutOfMemory>
    ensures { IfOk result (λ n. n ≡ served_through turns.now at what m driver) }
{
    match driver {
        None => Ok(0),
        Some(driver) => {
            if driver == at {
                served(alloc, turns, m, what)
            } else {
                Ok(0)
            }
        }
    }
}

/// The next binding's number. One past the greatest counts as want of memory.
fn next_binding(b: u32) -> Result<u32, OutOfMemory>
    ensures { IfOk result (λ next. next ≡ b + 1) }
{
    if b < u32::MAX {
        Ok(b + 1)
    } else {
        Err(OutOfMemory)
    }
}

fn served_through_bindings(
    alloc: Global,
    turns: &[Turn],
    at: usize,
    what: Called,
    b: u32,
    drivers: &[Option<usize>],
) -> Result<u64, OutOfMemory>
    ensures { IfOk result (λ n. n ≡ served_through_bindings turns.now at what b drivers.now) }
{
    match drivers {
        [] => Ok(0),
        [driver, others @ ..] => {
            let here = served_through(alloc, turns, at, what, ModuleId::Binding(b), *driver)?;
            let next = next_binding(b)?;
            sum_of(
                here,
                served_through_bindings(alloc, turns, at, what, next, others)?,
            )
        }
    }
}

fn served_through_filters(
    alloc: Global,
    turns: &[Turn],
    at: usize,
    what: Called,
    drivers: &[(u64, usize)],
) -> Result<u64, OutOfMemory>
    ensures { IfOk result (λ n. n ≡ served_through_filters turns.now at what drivers.now) }
{
    match drivers {
        [] => Ok(0),
        [driver, others @ ..] => {
            let m = ModuleId::Filter(driver.0);
            let here = served_through(alloc, turns, at, what, m, Some(driver.1))?;
            sum_of(
                here,
                served_through_filters(alloc, turns, at, what, others)?,
            )
        }
    }
}

/// How often a journal calls the driver at a place for this, where the handed-in drivers have these kinds. A
/// count past the greatest number counts as want of memory.
pub fn served_at(
    alloc: Global,
    head: &StackHead,
    miniports: &[MiniportKind],
    filters: &[FilterKind],
    protocols: &[ProtocolKind],
    turns: &[Turn],
    place: Place,
    what: Called,
) -> Result<u64, OutOfMemory>
    ensures { IfOk result (λ n. n ≡ served_at head.now miniports.now filters.now protocols.now turns.now place what) }
{
    match place {
        Place::Miniport(at) => {
            let driver = miniport_place(head.kind, miniports);
            served_through(alloc, turns, at, what, ModuleId::Miniport, driver)
        }
        Place::Filter(at) => {
            let shelf = shelf_of(alloc, filters, turns)?;
            served_through_filters(alloc, turns, at, what, shelf.drivers())
        }
        Place::Protocol(at) => {
            let bindings = head.bindings.items();
            let drivers = protocol_places(alloc, Vec::new(alloc), bindings, protocols)?;
            served_through_bindings(alloc, turns, at, what, 0, drivers.as_slice())
        }
    }
}
