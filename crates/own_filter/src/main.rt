//! Runs a script over a filter of an author's own, which drops ARP (0x0806), and prints the report and what
//! the filter counted.
#![tactic(auto)]

pub mod board;
pub mod class;
pub mod counts;
pub mod filter;
pub mod parts;

use crate::board::Board;
use crate::parts::EtherTypeFilter;
use binding_protocols::{LogProtocol, RetainProtocol};
use book_opening::StackDrivers;
use driver_calls::{
    FilterCalls, FilterDriver, MiniportCalls, MiniportDriver, ProtocolCalls, ProtocolDriver,
};
use ndis_base::OutOfMemory;
use outside_io::{MemorySource, Sink, StdSink};
use ring_adapters::LoopAdapter;
use sample_parts::{Status, ndis_serial, rested_filters, rested_miniports, rested_protocols};
use std::alloc::Global;
use std::sync::Arc;
use std::{fs, io};

/// The EtherType of ARP (IEEE 802 Numbers).
const ARP: u16 = 0x0806;

/// Calls over these drivers, once they rest.
fn run_over<K: Sink, M: MiniportCalls, P: ProtocolCalls, F: FilterCalls>(
    alloc: Global,
    miniports: Vec<M>,
    protocols: Vec<P>,
    shelf: Vec<F>,
    script: Vec<u8>,
    sink: &mut K,
) -> Result<Status, OutOfMemory> {
    let mut parts = Vec::with_capacity(alloc, 1)?;
    parts.push(StackDrivers {
        miniports: rested_miniports(alloc, miniports)?,
        protocols: rested_protocols(alloc, protocols)?,
        shelf: rested_filters(alloc, shelf)?,
    })?;
    let mut words = Vec::with_capacity(alloc, 1)?;
    words.push(String::from_str(alloc, "replay")?)?;
    let mut source = MemorySource::make(script, Vec::new(alloc));
    Ok(ndis_serial(alloc, words.as_slice(), &mut source, sink, &mut parts))
}

/// Boxes a loop adapter, two protocols and the filter, and calls over them. They are made here, since a
/// function that makes boxed drivers doesn't hand them out.
fn run<K: Sink>(
    alloc: Global,
    script: Vec<u8>,
    board: Arc<Board, Global>,
    sink: &mut K,
) -> Result<Status, OutOfMemory> {
    let mut miniports: Vec<Box<dyn MiniportDriver>> = Vec::new(alloc);
    let mut protocols: Vec<Box<dyn ProtocolDriver>> = Vec::new(alloc);
    let mut shelf: Vec<Box<dyn FilterDriver>> = Vec::new(alloc);
    miniports.push(Box::new(alloc, LoopAdapter::make(alloc, 0)?)?)?;
    protocols.push(Box::new(alloc, LogProtocol::make(alloc)?)?)?;
    protocols.push(Box::new(alloc, RetainProtocol::make(alloc)?)?)?;
    shelf.push(Box::new(alloc, EtherTypeFilter::make(ARP, board))?)?;
    run_over(alloc, miniports, protocols, shelf, script, sink)
}

fn main(rt: HostRuntime) -> io::Result<()> {
    let alloc = rt.alloc();
    let script = fs::read(&rt, "script.json")?;
    let board = Arc::new(alloc, Board::empty())?;
    let mut sink = StdSink::make(rt.stdout());
    match run(alloc, script, Arc::try_clone(&board)?, &mut sink) {
        Ok(Status::Done) => {
            let seen = board.read();
            println!(rt;
                "IPv4 {}, ARP {}, IPv6 {}, other {}",
                seen.ipv4, seen.arp, seen.ipv6, seen.other
            )
        }
        Ok(status) => println!(rt; "{status:?}"),
        Err(OutOfMemory) => println!(rt; "out of memory"),
    }
}
