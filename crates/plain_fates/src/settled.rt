//! Who takes a list in the turn in which it is settled where it is delivered.
ghost use Rattle.std.specs.Prelude.{◌≡◌, IfOk, OnOk, option_map};
ghost use Rattle.std.specs.List.{list_any};
ghost use Rattle.stack_rules.specs.Net.{after_turn, after_rows};
ghost use Rattle.promise_rules.specs.Fates.{settles, takers_in};

use journal_types::{Frames, PassWay, Row, Turn};
use ndis_base::{Direction, ModuleId, OutOfMemory};
use plain_deliveries::deliveries::takers;
use plain_net::PlainNet;
use std::alloc::Global;

fn settles(n: u64, row: &Row) -> bool
    ensures { result ≡ settles n row.now }
{
    match row {
        Row::Pass { list, way, .. } => match *way {
            PassWay::Back(_) => list.0 == n,
            _ => false,
        },
        Row::Keep { list, module } => match *module {
            ModuleId::Binding(_) => list.0 == n,
            _ => false,
        },
        Row::Issue {
            list,
            direction,
            ..
        } => match *direction {
            Direction::Lent => list.0 == n,
            _ => false,
        },
        _ => false,
    }
}

fn is_settled_in(n: u64, rows: &[Row]) -> bool
    ensures { result ≡ list_any (settles n) rows.now }
{
    match rows {
        [] => false,
        [row, others @ ..] => settles(n, row) || is_settled_in(n, others),
    }
}

fn note_rows(net: &mut PlainNet, rows: &[Row]) -> Result<(), OutOfMemory>
    ensures { OnOk result (net.new ≡ after_rows net.old rows.now) }
{
    match rows {
        [] => Ok(()),
        [row, others @ ..] => {
            net.note(row)?;
            note_rows(net, others)
        }
    }
}

fn note_turn(net: &mut PlainNet, turn: &Turn) -> Result<(), OutOfMemory>
    ensures { OnOk result (net.new ≡ after_turn net.old turn.now) }
{
    net.tell(&turn.event, &turn.reply)?;
    note_rows(net, turn.rows.items())
}

/// The bindings that take a list in the turn that settles it, in rising order, where there is such a turn.
pub fn takers_in(
    alloc: Global,
    net: PlainNet,
    turns: &[Turn],
    n: u64,
    frames: &Frames,
) -> Result<Option<Vec<u32>>, OutOfMemory>
    ensures { IfOk result (λ bindings. option_map (λ v. v.items) bindings ≡ takers_in net turns.now n frames.now) }
{
    match turns {
        [] => Ok(None),
        [turn, others @ ..] => {
            if is_settled_in(n, turn.rows.items()) {
                Ok(Some(takers(alloc, &net, frames)?))
            } else {
                let mut net = net;
                note_turn(&mut net, turn)?;
                takers_in(alloc, net, others, n, frames)
            }
        }
    }
}
