//! Sends, and what becomes of them at the miniport.
ghost use Rattle.std.specs.Prelude.{◌≡◌, IfOk, option_copied};
ghost use Rattle.journal_types.specs.declared.Row.TheVariants as row;
ghost use Rattle.stack_rules.specs.Sends.{sent, send_outcome, ring_is_full, miniport_rows, down_rows, loops, looped, transmitted, transmit_of, first_of, transmit_outcome};

use crate::handled::at_filter;
use journal_types::{Frames, Handler, Refusal, Reply, Row};
use ndis_base::{Direction, ListNo, ListStatus, ModuleId, OutOfMemory};
use plain_net::PlainNet;
use plain_parts::copies::copy_frames;
use plain_parts::rows::{no_rows, one_row, row_before, rows_and, two_rows};
use plain_parts::same::{is_loop, is_running_phase, is_virtual};
use plain_places::PlainOutcome;
use plain_places::lists::{is_full, kept_lists};
use plain_places::outcome::{answered, refused, root};
use plain_places::places::position;
use plain_places::targets::{homeward, onward, turned_back};
use stack_rules::LiveList;
use std::alloc::Global;

/// A binding's list, on its way down.
fn sent(
    alloc: Global,
    net: &PlainNet,
    binding: u32,
    cancel: Option<u32>,
    frames: &Frames,
) -> Result<Vec<Row>, OutOfMemory>
    ensures { IfOk result (λ rows. rows.items ≡ sent net.now binding cancel frames.now) }
{
    let n = net.next().list();
    let issue = root(
        alloc,
        net,
        n,
        ModuleId::Binding(binding),
        Direction::Down,
        cancel,
        frames,
    )?;
    two_rows(
        alloc,
        issue,
        onward(alloc, net.modules(), ListNo(n), Direction::Down, 0)?,
    )
}

/// A binding sends frames: refused while the stack doesn't run, or where its pool has no list.
pub fn send_outcome(
    alloc: Global,
    net: &PlainNet,
    binding: u32,
    cancel: Option<u32>,
    frames: &Frames,
) -> Result<PlainOutcome, OutOfMemory>
    ensures { IfOk result (λ o. o ≡ send_outcome net.now binding cancel frames.now) }
{
    if !is_running_phase(net.phase()) {
        return Ok(refused(alloc, Refusal::Paused { phase: net.phase() }));
    }
    if is_full(net, ModuleId::Binding(binding)) {
        return Ok(refused(alloc, Refusal::NoList));
    }
    let rows = sent(alloc, net, binding, cancel, frames)?;
    Ok(PlainOutcome::of(
        Reply::Sent {
            list: ListNo(net.next().list()),
        },
        rows,
    ))
}

/// Whether the ring holds its capacity.
fn ring_is_full(alloc: Global, net: &PlainNet) -> Result<bool, OutOfMemory>
    ensures { IfOk result (λ full. full ≡ ring_is_full net.now) }
{
    let ring = kept_lists(alloc, net, ModuleId::Miniport)?;
    Ok(ring.len() == net.head().port.ring)
}

/// The miniport keeps the list in its ring, or turns it back where the ring is full.
fn miniport_rows(alloc: Global, net: &PlainNet, l: &LiveList) -> Result<Vec<Row>, OutOfMemory>
    ensures { IfOk result (λ rows. rows.items ≡ miniport_rows net.now l.now) }
{
    let give = Row::Give {
        list: l.list,
        module: ModuleId::Miniport,
        handler: Handler::Send,
    };
    if ring_is_full(alloc, net)? {
        row_before(
            give,
            turned_back(
                alloc,
                net.modules(),
                l,
                ModuleId::Miniport,
                ListStatus::Resources,
            )?,
        )
    } else {
        two_rows(
            alloc,
            give,
            Row::Keep {
                list: l.list,
                module: ModuleId::Miniport,
            },
        )
    }
}

/// The rows of a list on its way down, at the module that it comes to.
pub fn down_rows(
    alloc: Global,
    net: &PlainNet,
    l: &LiveList,
    m: ModuleId,
    keeps: bool,
) -> Result<Vec<Row>, OutOfMemory>
    ensures { IfOk result (λ rows. rows.items ≡ down_rows net.now l.now m keeps) }
{
    match m {
        ModuleId::Miniport => miniport_rows(alloc, net, l),
        ModuleId::Filter(f) => at_filter(alloc, net, net.modules().attached(f), l, keeps),
        ModuleId::Binding(_) => Ok(no_rows(alloc)),
    }
}

fn loops(net: &PlainNet) -> bool
    ensures { result ≡ loops net.now }
{
    is_loop(net.head().kind) && (is_running_phase(net.phase()) && !is_full(net, ModuleId::Miniport))
}

/// A loop adapter indicates what it transmits.
fn looped(alloc: Global, net: &PlainNet, l: &LiveList) -> Result<Vec<Row>, OutOfMemory>
    ensures { IfOk result (λ rows. rows.items ≡ looped net.now l.now) }
{
    if loops(net) {
        let n = net.next().list();
        let ms = net.modules();
        let issue = root(
            alloc,
            net,
            n,
            ModuleId::Miniport,
            Direction::Up,
            None,
            &l.frames,
        )?;
        let at = position(ms.order(), ModuleId::Miniport);
        two_rows(
            alloc,
            issue,
            onward(alloc, ms, ListNo(n), Direction::Up, at)?,
        )
    } else {
        Ok(no_rows(alloc))
    }
}

fn wire_row(alloc: Global, l: &LiveList) -> Result<Row, OutOfMemory>
    ensures { IfOk result (λ made. made ≡ row.Wire l.now.list l.now.frames) }
{
    Ok(Row::Wire {
        list: l.list,
        frames: copy_frames(alloc, &l.frames)?,
    })
}

/// The list goes onto the wire, and is done.
pub fn transmitted(alloc: Global, net: &PlainNet, l: &LiveList) -> Result<Vec<Row>, OutOfMemory>
    ensures { IfOk result (λ rows. rows.items ≡ transmitted net.now l.now) }
{
    let ms = net.modules();
    let at = position(ms.order(), ModuleId::Miniport);
    let done = one_row(alloc, homeward(alloc, ms, l, at, ListStatus::Success)?)?;
    let after = rows_and(looped(alloc, net, l)?, done)?;
    row_before(wire_row(alloc, l)?, after)
}

/// The first of some lists.
pub fn first_of(lists: &[LiveList]) -> Option<&LiveList>
    ensures { option_copied result ≡ first_of lists.now }
{
    match lists {
        [] => None,
        [l, ..] => Some(l),
    }
}

fn transmit_of(
    alloc: Global,
    net: &PlainNet,
    l: Option<&LiveList>,
) -> Result<PlainOutcome, OutOfMemory>
    ensures { IfOk result (λ o. o ≡ transmit_of net.now (option_copied l.entry)) }
{
    match l {
        None => Ok(answered(alloc, Reply::Idle)),
        Some(l) => {
            let rows = transmitted(alloc, net, l)?;
            Ok(PlainOutcome::of(Reply::Wired { list: l.list }, rows))
        }
    }
}

/// The oldest list of the ring of a ring or loop adapter goes onto the wire.
pub fn transmit_outcome(alloc: Global, net: &PlainNet) -> Result<PlainOutcome, OutOfMemory>
    ensures { IfOk result (λ o. o ≡ transmit_outcome net.now) }
{
    if is_virtual(net.head().kind) {
        transmit_of(alloc, net, None)
    } else {
        let kept = kept_lists(alloc, net, ModuleId::Miniport)?;
        transmit_of(alloc, net, first_of(kept.as_slice()))
    }
}
