//! The calls of several lanes, put in order.
ghost use Rattle.std.specs.Prelude.{◌≡◌, ◌++◌, ◌≤◌, ◌<◌, List, true, OnOk, IfOk, length, map, drop, slice_index_or};
ghost use Rattle.std.specs.List.{list_all};
ghost use Rattle.script_types.specs.declared.Call.{Call};
ghost use Rattle.lane_orders.specs.Orders.{calls_of, is_below, lane_by_lane, ordered};
ghost use Rattle.lane_orders.specs.Nexts.{AreWithin, Leaves, MovesOn, MovesAlong};

use ndis_base::OutOfMemory;
use script_types::Call;
use std::alloc::Global;

/// The place of a lane's first call from a place on; past the last call where it has none.
fn place_of(calls: &[Call], lane: u8, from: usize) -> usize
    requires { from ≤ length calls.now }
    ensures within { result ≤ length calls.now }
    ensures first { calls_of lane (drop result calls.now) ≡ calls_of lane (drop from calls.now) }
    ensures own { (c : Call) → result < length calls.now → (slice_index_or calls.now result c).lane.0 ≡ lane }
{
    let mut at = from;
    while at < calls.len() && calls[at].lane.0 != lane {
        at += 1;
    }
    at
}

/// Adds a lane's next call, if it has one left, and moves the lane's place behind it.
fn push_next<'a>(
    calls: &'a [Call],
    nexts: &mut [usize],
    lane: u8,
    made: &mut Vec<&'a Call>,
) -> Result<(), OutOfMemory>
    requires { AreWithin calls.now nexts.old }
    ensures { OnOk result (MovesOn calls.now lane nexts.old (map (λ c. c.now) made.old.items) nexts.new (map (λ c. c.now) made.new.items)) }
{
    if lane as usize >= nexts.len() {
        return Ok(());
    }
    let at = place_of(calls, lane, nexts[lane as usize]);
    if at < calls.len() {
        made.push(&calls[at])?;
        nexts[lane as usize] = at + 1;
    }
    Ok(())
}

/// Adds the next call of each lane of an order.
fn push_order<'a>(
    calls: &'a [Call],
    nexts: &mut [usize],
    order: &[u8],
    made: &mut Vec<&'a Call>,
) -> Result<(), OutOfMemory>
    requires { AreWithin calls.now nexts.old }
    ensures { OnOk result (MovesAlong calls.now order.now nexts.old (map (λ c. c.now) made.old.items) nexts.new (map (λ c. c.now) made.new.items)) }
{
    for &lane in order {
        push_next(calls, nexts, lane, made)?;
    }
    Ok(())
}

/// Adds the calls of a lane from a place on.
fn push_rest<'a>(
    calls: &'a [Call],
    lane: usize,
    next: usize,
    made: &mut Vec<&'a Call>,
) -> Result<(), OutOfMemory>
    requires { next ≤ length calls.now }
    ensures { OnOk result (map (λ c. c.now) made.new.items ≡ map (λ c. c.now) made.old.items ++ calls_of lane (drop next calls.now)) }
{
    for call in &calls[next..] {
        if call.lane.0 as usize == lane {
            made.push(call)?;
        }
    }
    Ok(())
}

/// Adds the calls that are left, lane by lane.
fn push_lanes<'a>(
    calls: &'a [Call],
    nexts: &[usize],
    made: &mut Vec<&'a Call>,
) -> Result<(), OutOfMemory>
    requires { AreWithin calls.now nexts.now }
    ensures { OnOk result ((rest : List Call) → Leaves calls.now nexts.now rest → map (λ c. c.now) made.new.items ≡ map (λ c. c.now) made.old.items ++ lane_by_lane (length nexts.now) rest) }
{
    for (lane, next) in nexts.iter().enumerate() {
        push_rest(calls, lane, *next, made)?;
    }
    Ok(())
}

/// Adds the next call of each lane of an order, and then those that are left, lane by lane.
fn push_all<'a>(
    calls: &'a [Call],
    nexts: &mut [usize],
    order: &[u8],
    made: &mut Vec<&'a Call>,
) -> Result<(), OutOfMemory>
    requires within { AreWithin calls.now nexts.old }
    requires left { Leaves calls.now nexts.old calls.now }
    ensures { OnOk result (map (λ c. c.now) made.new.items ≡ map (λ c. c.now) made.old.items ++ ordered (length nexts.old) order.now calls.now) }
{
    push_order(calls, nexts, order, made)?;
    push_lanes(calls, nexts, made)?;
    Ok(())
}

/// The calls of so many lanes in the order in which they are made: for each lane of an order the lane's next
/// call, a lane without calls left being skipped, and then the rest, lane by lane in rising order.
pub fn in_order<'a>(
    alloc: Global,
    lanes: u8,
    calls: &'a [Call],
    order: &[u8],
) -> Result<Vec<&'a Call>, OutOfMemory>
    requires { list_all (is_below lanes) calls.now ≡ true }
    ensures { IfOk result (λ v. map (λ c. c.now) v.items ≡ ordered lanes order.now calls.now) }
{
    let mut made = Vec::with_capacity(alloc, calls.len())?;
    let mut nexts = vec![in alloc; 0; lanes as usize]?;
    push_all(calls, nexts.as_mut_slice(), order, &mut made)?;
    Ok(made)
}
