//! The drivers that the program hands in, and calls of the top call over them. A function that makes boxed
//! drivers doesn't hand them out, so the calls stand here.
#![tactic(auto)]

ghost use Rattle.std.specs.Prelude.{◌≡◌, true, All, IfOk, map};
ghost use Rattle.book_lemmas.specs.Stands.{IsResting};
ghost use Rattle.book_opening.specs.Opened.{IsHaltedDriver, IsClosedDriver};

use binding_protocols::{EchoProtocol, LogProtocol, RetainProtocol};
use book_opening::StackDrivers;
use classify_filters::{ClassifyFilter, LldpClass};
use driver_calls::{
    FilterCalls, FilterDriver, MiniportCalls, MiniportDriver, ProtocolCalls, ProtocolDriver,
};
use frame_filters::{CountFilter, HoldFilter, PassFilter};
use ndis_base::OutOfMemory;
pub use ndis_cli::{Status, ndis_serial};
use outside_io::{Sink, Source};
use ring_adapters::{LoopAdapter, RingAdapter};
use rule_filters::{RuleFilter, TagFilter};
use std::alloc::Global;

/// How many drivers of each kind are handed in.
#[derive(Clone, Copy, Debug, PartialEq, Eq)]
pub struct Drivers {
    pub miniports: usize,
    pub protocols: usize,
    pub filters: usize,
}

/// What the program hands in: an adapter of each kind, eight protocols of each kind, and on the shelf
/// sixteen filters of each kind.
pub const ALL_DRIVERS: Drivers = Drivers {
    miniports: 1,
    protocols: 8,
    filters: 16,
};

/// Brings a driver to rest, where it keeps nothing.
fn rest_miniport<M: MiniportCalls>(miniport: &mut M) -> bool
    ensures { result ≡ true → IsHaltedDriver (M.state miniport.new) }
{
    if miniport.held() > 0 {
        return false;
    }
    miniport.halt();
    true
}

/// Drivers that rest. One that keeps a list is let go.
pub fn rested_miniports<M: MiniportCalls>(
    alloc: Global,
    those: Vec<M>,
) -> Result<Vec<M>, OutOfMemory>
    ensures { IfOk result (λ v. All IsHaltedDriver (map M.state v.items)) }
{
    let mut those = those;
    let mut rested = Vec::new(alloc);
    while let Some(item) = those.pop() {
        let mut item = item;
        if rest_miniport(&mut item) {
            rested.push(item)?;
        }
    }
    Ok(rested)
}

/// Brings a driver to rest, where it keeps nothing.
fn rest_protocol<P: ProtocolCalls>(protocol: &mut P) -> bool
    ensures { result ≡ true → IsClosedDriver (P.state protocol.new) }
{
    if protocol.held() > 0 {
        return false;
    }
    protocol.close();
    true
}

/// Drivers that rest. One that keeps a list is let go.
pub fn rested_protocols<P: ProtocolCalls>(
    alloc: Global,
    those: Vec<P>,
) -> Result<Vec<P>, OutOfMemory>
    ensures { IfOk result (λ v. All IsClosedDriver (map P.state v.items)) }
{
    let mut those = those;
    let mut rested = Vec::new(alloc);
    while let Some(item) = those.pop() {
        let mut item = item;
        if rest_protocol(&mut item) {
            rested.push(item)?;
        }
    }
    Ok(rested)
}

/// Brings a driver to rest, where it keeps nothing.
fn rest_filter<F: FilterCalls>(filter: &mut F) -> bool
    ensures { result ≡ true → IsResting (F.state filter.new) }
{
    if filter.held() > 0 {
        return false;
    }
    filter.detach();
    true
}

/// Drivers that rest. One that keeps a list is let go.
pub fn rested_filters<F: FilterCalls>(alloc: Global, those: Vec<F>) -> Result<Vec<F>, OutOfMemory>
    ensures { IfOk result (λ v. All IsResting (map F.state v.items)) }
{
    let mut those = those;
    let mut rested = Vec::new(alloc);
    while let Some(item) = those.pop() {
        let mut item = item;
        if rest_filter(&mut item) {
            rested.push(item)?;
        }
    }
    Ok(rested)
}

/// Calls with these words over so many drivers of each kind, all new; and, where there is a further
/// source, once more over the drivers that came back. It answers how the last call ended.
pub fn call_over<S: Source, K: Sink>(
    alloc: Global,
    drivers: Drivers,
    words: &[String],
    source: &mut S,
    further: Option<&mut S>,
    sink: &mut K,
) -> Result<Status, OutOfMemory> {
    let mut miniports: Vec<Box<dyn MiniportDriver>> = Vec::new(alloc);
    let mut protocols: Vec<Box<dyn ProtocolDriver>> = Vec::new(alloc);
    let mut shelf: Vec<Box<dyn FilterDriver>> = Vec::new(alloc);
    for _ in 0..drivers.miniports {
        miniports.push(Box::new(alloc, RingAdapter::make(alloc, 0)?)?)?;
        miniports.push(Box::new(alloc, LoopAdapter::make(alloc, 0)?)?)?;
    }
    for _ in 0..drivers.protocols {
        protocols.push(Box::new(alloc, LogProtocol::make(alloc)?)?)?;
        protocols.push(Box::new(alloc, RetainProtocol::make(alloc)?)?)?;
        protocols.push(Box::new(alloc, EchoProtocol::make(alloc)?)?)?;
    }
    for _ in 0..drivers.filters {
        shelf.push(Box::new(alloc, PassFilter::make(alloc)?)?)?;
        shelf.push(Box::new(alloc, HoldFilter::make(alloc)?)?)?;
        shelf.push(Box::new(alloc, CountFilter::make(alloc)?)?)?;
        shelf.push(Box::new(alloc, RuleFilter::make(alloc)?)?)?;
        shelf.push(Box::new(alloc, TagFilter::make(alloc)?)?)?;
        shelf.push(Box::new(alloc, ClassifyFilter::make(alloc, LldpClass)?)?)?;
    }
    let mut parts = Vec::with_capacity(alloc, 1)?;
    parts.push(StackDrivers {
        miniports: rested_miniports(alloc, miniports)?,
        protocols: rested_protocols(alloc, protocols)?,
        shelf: rested_filters(alloc, shelf)?,
    })?;
    let status = ndis_serial(alloc, words, source, sink, &mut parts);
    match further {
        Some(further) => Ok(ndis_serial(alloc, words, further, sink, &mut parts)),
        None => Ok(status),
    }
}
