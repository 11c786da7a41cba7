//! Delivery to the bindings.
ghost use Rattle.std.specs.Prelude.{◌≡◌, IfOk, slice_index, slice_index_or, []};
ghost use Rattle.journal_types.specs.declared.Row.TheVariants as row;
ghost use Rattle.stack_rules.specs.Deliveries.{is_broadcast, is_multicast, is_taken_by, takers, echoes, echoed, how_for, delivered, last_of, settled, delivery_rows};

use journal_types::{Frames, How, Row};
use ndis_base::{Direction, ListNo, ListStatus, ModuleId, OutOfMemory};
use plain_net::PlainNet;
use plain_parts::copies::copy_frames;
use plain_parts::rows::{next_number, no_rows, one_row, row_before, rows_and, two_rows};
use plain_parts::same::{is_echo, is_retain, is_running_phase, same_bytes};
use plain_places::lists::{binding_numbers, is_full};
use plain_places::outcome::root;
use plain_places::targets::{homeward, onward};
use plain_ports::messages::kind_of_binding;
use plain_programs::bytes::{byte_at, front_of};
use stack_rules::LiveList;
use std::alloc::Global;

fn is_broadcast(frame: &[u8]) -> bool
    ensures { result ≡ is_broadcast frame.now }
{
    same_bytes(front_of(frame, 6), &[255; 6])
}

fn is_multicast(frame: &[u8]) -> bool
    ensures { result ≡ is_multicast frame.now }
{
    byte_at(frame, 0) & 1 == 1 && !is_broadcast(frame)
}

/// Whether a packet filter takes a frame.
fn takes(value: u32, address: &[u8], frame: &[u8]) -> bool
    ensures { result ≡ is_taken_by value address.now frame.now }
{
    (value & 1 == 1 && same_bytes(front_of(frame, 6), address))
        || ((value & 4 == 4 && is_multicast(frame))
            || ((value & 8 == 8 && is_broadcast(frame)) || value & 32 == 32))
}

fn filter_at(filters: &[u32], b: u32) -> u32
    ensures { result ≡ slice_index filters.now b }
{
    if (b as usize) < filters.len() {
        filters[b as usize]
    } else {
        0
    }
}

fn first_frame(frames: &Frames) -> &[u8]
    ensures { result.now ≡ slice_index_or frames.now 0 [] }
{
    match frames.items() {
        [] => &[],
        [frame, ..] => frame.bytes(),
    }
}

fn takes_at(net: &PlainNet, frames: &Frames, b: u32) -> bool
    ensures { result ≡ is_taken_by (slice_index net.now.port.delivers_by b) net.now.head.port.address (slice_index_or frames.now 0 []) }
{
    takes(
        filter_at(net.port().delivers_by(), b),
        &net.head().port.address,
        first_frame(frames),
    )
}

/// The bindings that take a list, in rising order.
pub fn takers(alloc: Global, net: &PlainNet, frames: &Frames) -> Result<Vec<u32>, OutOfMemory>
    ensures { IfOk result (λ bindings. bindings.items ≡ takers net.now frames.now) }
{
    let numbers = binding_numbers(alloc, net.head())?;
    let mut bindings = Vec::new(alloc);
    for b in numbers {
        if takes_at(net, frames, b) {
            bindings.push(b)?;
        }
    }
    Ok(bindings)
}

fn echoes(net: &PlainNet, b: u32) -> bool
    ensures { result ≡ echoes net.now b }
{
    is_echo(kind_of_binding(net.head(), b))
        && (is_running_phase(net.phase()) && !is_full(net, ModuleId::Binding(b)))
}

/// An echo protocol sends what is delivered to it.
fn echoed(
    alloc: Global,
    net: &PlainNet,
    n: u64,
    b: u32,
    frames: &Frames,
) -> Result<Vec<Row>, OutOfMemory>
    ensures { IfOk result (λ rows. rows.items ≡ echoed net.now n b frames.now) }
{
    let issue = root(
        alloc,
        net,
        n,
        ModuleId::Binding(b),
        Direction::Down,
        None,
        frames,
    )?;
    two_rows(
        alloc,
        issue,
        onward(alloc, net.modules(), ListNo(n), Direction::Down, 0)?,
    )
}

fn how_for(own: How, others: &[u32]) -> How
    ensures { result ≡ how_for own others.now }
{
    match others {
        [] => own,
        [_, ..] => How::Lent,
    }
}

fn delivery_row(
    alloc: Global,
    list: ListNo,
    b: u32,
    how: How,
    frames: &Frames,
) -> Result<Row, OutOfMemory>
    ensures { IfOk result (λ made. made ≡ row.Deliver list b how frames.now) }
{
    Ok(Row::Deliver {
        list,
        binding: b,
        how,
        frames: copy_frames(alloc, frames)?,
    })
}

/// The rows of a delivery to these bindings: own is how the last one gets the list, n the number of the next
/// list.
pub fn delivered(
    alloc: Global,
    net: &PlainNet,
    list: ListNo,
    frames: &Frames,
    own: How,
    n: u64,
    bindings: &[u32],
) -> Result<Vec<Row>, OutOfMemory>
    ensures { IfOk result (λ rows. rows.items ≡ delivered net.now list frames.now own n bindings.now) }
{
    match bindings {
        [] => Ok(no_rows(alloc)),
        [b, others @ ..] => {
            let deliver = delivery_row(alloc, list, *b, how_for(own, others), frames)?;
            if echoes(net, *b) {
                let rest = delivered(alloc, net, list, frames, own, next_number(n)?, others)?;
                row_before(deliver, rows_and(echoed(alloc, net, n, *b, frames)?, rest)?)
            } else {
                row_before(
                    deliver,
                    delivered(alloc, net, list, frames, own, n, others)?,
                )
            }
        }
    }
}

fn last_of(bindings: &[u32]) -> Option<u32>
    ensures { result ≡ last_of bindings.now }
{
    match bindings {
        [] => None,
        [b] => Some(*b),
        [_, others @ ..] => last_of(others),
    }
}

/// The last one keeps it, which only a retain protocol may choose, or returns it at once.
fn settled(
    alloc: Global,
    net: &PlainNet,
    l: &LiveList,
    keeps: bool,
    last: Option<u32>,
) -> Result<Vec<Row>, OutOfMemory>
    ensures { IfOk result (λ rows. rows.items ≡ settled net.now l.now keeps last) }
{
    match last {
        None => one_row(
            alloc,
            homeward(alloc, net.modules(), l, 0, ListStatus::Success)?,
        ),
        Some(b) => {
            if keeps && is_retain(kind_of_binding(net.head(), b)) {
                one_row(
                    alloc,
                    Row::Keep {
                        list: l.list,
                        module: ModuleId::Binding(b),
                    },
                )
            } else {
                one_row(
                    alloc,
                    homeward(alloc, net.modules(), l, 0, ListStatus::Success)?,
                )
            }
        }
    }
}

/// The rows of an owned list at the bindings: it is delivered, and then kept or returned.
pub fn delivery_rows(
    alloc: Global,
    net: &PlainNet,
    l: &LiveList,
    keeps: bool,
) -> Result<Vec<Row>, OutOfMemory>
    ensures { IfOk result (λ rows. rows.items ≡ delivery_rows net.now l.now keeps) }
{
    let bindings = takers(alloc, net, &l.frames)?;
    let n = net.next().list();
    let rows = delivered(
        alloc,
        net,
        l.list,
        &l.frames,
        How::Own,
        n,
        bindings.as_slice(),
    )?;
    rows_and(
        rows,
        settled(alloc, net, l, keeps, last_of(bindings.as_slice()))?,
    )
}
