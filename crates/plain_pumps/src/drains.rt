//! A drain moves what stands still while the stack is to become empty.
ghost use Rattle.std.specs.Prelude.{◌≡◌, ◌∷◌, ◌++◌, [], IfOk, option_copied, map};
ghost use Rattle.stack_rules.specs.Drains.{returned_by, returns_all, passed_by, passes_all, empties, empties_ring, first_rows, drain_rows, drained, drain_outcome};

use crate::pumps::{pump_moves, pump_outcome};
use journal_types::{Reply, Row};
use ndis_base::{ListStatus, ModuleId, OutOfMemory};
use plain_net::PlainNet;
use plain_parts::rows::{no_rows, row_before};
use plain_parts::same::{is_retain, is_running_phase, is_virtual};
use plain_places::PlainOutcome;
use plain_places::lists::{binding_numbers, ready_lists};
use plain_places::outcome::answered;
use plain_places::places::position;
use plain_places::targets::{homeward, onward, turned_back};
use plain_ports::messages::kind_of_binding;
use plain_sends::sends::{first_of, transmitted};
use stack_rules::LiveList;
use std::alloc::Global;

fn returned(alloc: Global, net: &PlainNet, lists: &[LiveList]) -> Result<Vec<Row>, OutOfMemory>
    ensures { IfOk result (λ rows. rows.items ≡ map (returned_by net.now) lists.now) }
{
    match lists {
        [] => Ok(no_rows(alloc)),
        [l, others @ ..] => {
            let row = homeward(alloc, net.modules(), l, 0, ListStatus::Success)?;
            row_before(row, returned(alloc, net, others)?)
        }
    }
}

/// A retain protocol returns all that it keeps, the oldest first.
fn returns_all(alloc: Global, net: &PlainNet, b: u32) -> Result<Vec<Row>, OutOfMemory>
    ensures { IfOk result (λ rows. rows.items ≡ returns_all net.now b) }
{
    if is_retain(kind_of_binding(net.head(), b)) {
        let ready = ready_lists(alloc, net, ModuleId::Binding(b))?;
        returned(alloc, net, ready.as_slice())
    } else {
        Ok(no_rows(alloc))
    }
}

fn passed(
    alloc: Global,
    net: &PlainNet,
    f: u64,
    lists: &[LiveList],
) -> Result<Vec<Row>, OutOfMemory>
    ensures { IfOk result (λ rows. rows.items ≡ map (passed_by net.now f) lists.now) }
{
    match lists {
        [] => Ok(no_rows(alloc)),
        [l, others @ ..] => {
            let ms = net.modules();
            let at = position(ms.order(), ModuleId::Filter(f));
            let row = onward(alloc, ms, l.list, l.direction, at)?;
            row_before(row, passed(alloc, net, f, others)?)
        }
    }
}

/// A hold filter passes on all ready lists that it keeps, the oldest first.
fn passes_all(alloc: Global, net: &PlainNet, f: u64) -> Result<Vec<Row>, OutOfMemory>
    ensures { IfOk result (λ rows. rows.items ≡ passes_all net.now f) }
{
    if net.modules().is_hold_filter(f) {
        let ready = ready_lists(alloc, net, ModuleId::Filter(f))?;
        passed(alloc, net, f, ready.as_slice())
    } else {
        Ok(no_rows(alloc))
    }
}

fn empties(alloc: Global, net: &PlainNet, l: Option<&LiveList>) -> Result<Vec<Row>, OutOfMemory>
    ensures { IfOk result (λ rows. rows.items ≡ empties net.now (option_copied l.entry)) }
{
    match l {
        None => Ok(no_rows(alloc)),
        Some(l) => {
            if !is_virtual(net.head().kind) {
                transmitted(alloc, net, l)
            } else if is_running_phase(net.phase()) {
                Ok(no_rows(alloc))
            } else {
                turned_back(
                    alloc,
                    net.modules(),
                    l,
                    ModuleId::Miniport,
                    ListStatus::Paused,
                )
            }
        }
    }
}

/// A ring or loop adapter transmits its oldest; a virtual miniport turns it back.
fn empties_ring(alloc: Global, net: &PlainNet) -> Result<Vec<Row>, OutOfMemory>
    ensures { IfOk result (λ rows. rows.items ≡ empties_ring net.now) }
{
    let ready = ready_lists(alloc, net, ModuleId::Miniport)?;
    empties(alloc, net, first_of(ready.as_slice()))
}

fn last_rows(alloc: Global, net: &PlainNet) -> Result<Vec<Row>, OutOfMemory>
    ensures { IfOk result (λ rows. rows.items ≡ first_rows (empties_ring net.now ∷ [])) }
{
    let rows = empties_ring(alloc, net)?;
    match rows.as_slice() {
        [] => Ok(no_rows(alloc)),
        [_, ..] => Ok(rows),
    }
}

fn passing_rows(alloc: Global, net: &PlainNet, filters: &[u64]) -> Result<Vec<Row>, OutOfMemory>
    ensures { IfOk result (λ rows. rows.items ≡ first_rows (map (passes_all net.now) filters.now ++ empties_ring net.now ∷ [])) }
{
    match filters {
        [] => last_rows(alloc, net),
        [f, others @ ..] => {
            let rows = passes_all(alloc, net, *f)?;
            match rows.as_slice() {
                [] => passing_rows(alloc, net, others),
                [_, ..] => Ok(rows),
            }
        }
    }
}

fn returning_rows(alloc: Global, net: &PlainNet, bindings: &[u32]) -> Result<Vec<Row>, OutOfMemory>
    ensures { IfOk result (λ rows. rows.items ≡ first_rows (map (returns_all net.now) bindings.now ++ (map (passes_all net.now) net.now.modules.order ++ empties_ring net.now ∷ []))) }
{
    match bindings {
        [] => passing_rows(alloc, net, net.modules().order()),
        [b, others @ ..] => {
            let rows = returns_all(alloc, net, *b)?;
            match rows.as_slice() {
                [] => returning_rows(alloc, net, others),
                [_, ..] => Ok(rows),
            }
        }
    }
}

/// The rows of the first module that has any.
fn drain_rows(alloc: Global, net: &PlainNet) -> Result<Vec<Row>, OutOfMemory>
    ensures { IfOk result (λ rows. rows.items ≡ drain_rows net.now) }
{
    let bindings = binding_numbers(alloc, net.head())?;
    returning_rows(alloc, net, bindings.as_slice())
}

fn drained(alloc: Global, rows: Vec<Row>) -> PlainOutcome
    ensures { result ≡ drained rows.items }
{
    match rows.as_slice() {
        [] => answered(alloc, Reply::Idle),
        [_, ..] => PlainOutcome::of(Reply::Moved, rows),
    }
}

pub fn drain_outcome(
    alloc: Global,
    net: &PlainNet,
    keeps: bool,
) -> Result<PlainOutcome, OutOfMemory>
    ensures { IfOk result (λ o. o ≡ drain_outcome net.now keeps) }
{
    if pump_moves(alloc, net)? {
        pump_outcome(alloc, net, keeps)
    } else {
        Ok(drained(alloc, drain_rows(alloc, net)?))
    }
}
