//! What a filter does with a list that it is given.
ghost use Rattle.std.specs.Prelude.{◌≡◌, IfOk, option_copied};
ghost use Rattle.ndis_base.specs.declared.ModuleId.TheVariants.{Filter};
ghost use Rattle.ndis_base.specs.declared.Origin.TheVariants as origin;
ghost use Rattle.journal_types.specs.declared.Row.TheVariants as row;
ghost use Rattle.stack_rules.specs.Outcome.{list_no, config_no};
ghost use Rattle.stack_rules.specs.Handled.{program, made_of, cloned, stays, changes, handled_as, given_by, filter_rows};
ghost use Rattle.stack_rules.specs.Sends.{at_filter};

use journal_types::{Frames, Handler, Row, Setup};
use ndis_base::{ConfigNo, Direction, ListNo, ListStatus, ModuleId, Origin, OutOfMemory};
use plain_net::PlainNet;
use plain_parts::copies::copy_frames;
use plain_parts::rows::{no_rows, one_row, row_before, two_rows};
use plain_parts::same::{is_hold, same_frames};
use plain_places::lists::is_full;
use plain_places::outcome::MAX_FRAME;
use plain_places::places::position;
use plain_places::targets::{onward, turned_back};
use plain_programs::rules::applied;
use program_types::Program;
use stack_rules::{Attached, LiveList};
use std::alloc::Global;

fn program(setup: &Setup, d: Direction) -> &Program
    ensures { result.now ≡ program setup.now d }
{
    match d {
        Direction::Down => &setup.send,
        Direction::Up => &setup.receive,
        Direction::Lent => &setup.receive,
    }
}

/// What the filter makes of the list's frames.
fn made_of(
    alloc: Global,
    net: &PlainNet,
    a: &Attached,
    l: &LiveList,
) -> Result<Option<Frames>, OutOfMemory>
    ensures { IfOk result (λ made. made ≡ made_of net.now a.now l.now) }
{
    applied(alloc, MAX_FRAME, program(&a.setup, l.direction), &l.frames)
}

fn clone_row(
    alloc: Global,
    net: &PlainNet,
    a: &Attached,
    l: &LiveList,
    frames: &Frames,
) -> Result<Row, OutOfMemory>
    ensures { IfOk result (λ made. made ≡ row.Issue (list_no net.now.next.list) (Filter a.now.filter) (config_no net.now.modules.config) l.now.direction l.now.cancel (origin.Clone l.now.list) frames.now) }
{
    Ok(Row::Issue {
        list: ListNo(net.next().list()),
        owner: ModuleId::Filter(a.filter),
        config: ConfigNo(net.modules().config()),
        direction: l.direction,
        cancel: l.cancel,
        origin: Origin::Clone(l.list),
        frames: copy_frames(alloc, frames)?,
    })
}

/// A clone with changed frames goes on, and the original is kept.
fn cloned(
    alloc: Global,
    net: &PlainNet,
    a: &Attached,
    l: &LiveList,
    frames: &Frames,
) -> Result<Vec<Row>, OutOfMemory>
    ensures { IfOk result (λ rows. rows.items ≡ cloned net.now a.now l.now frames.now) }
{
    let f = ModuleId::Filter(a.filter);
    let ms = net.modules();
    let issue = clone_row(alloc, net, a, l, frames)?;
    let keep = Row::Keep {
        list: l.list,
        module: f,
    };
    let pass = onward(
        alloc,
        ms,
        ListNo(net.next().list()),
        l.direction,
        position(ms.order(), f),
    )?;
    row_before(issue, two_rows(alloc, keep, pass)?)
}

/// Frames that stay are passed on, or kept by a hold filter that so chooses.
fn stays(
    alloc: Global,
    net: &PlainNet,
    a: &Attached,
    l: &LiveList,
    keeps: bool,
) -> Result<Vec<Row>, OutOfMemory>
    ensures { IfOk result (λ rows. rows.items ≡ stays net.now a.now l.now keeps) }
{
    let f = ModuleId::Filter(a.filter);
    let ms = net.modules();
    if keeps && is_hold(a.kind) {
        one_row(
            alloc,
            Row::Keep {
                list: l.list,
                module: f,
            },
        )
    } else {
        one_row(
            alloc,
            onward(alloc, ms, l.list, l.direction, position(ms.order(), f))?,
        )
    }
}

fn changes(
    alloc: Global,
    net: &PlainNet,
    a: &Attached,
    l: &LiveList,
    frames: &Frames,
) -> Result<Vec<Row>, OutOfMemory>
    ensures { IfOk result (λ rows. rows.items ≡ changes net.now a.now l.now frames.now) }
{
    let f = ModuleId::Filter(a.filter);
    if is_full(net, f) {
        turned_back(alloc, net.modules(), l, f, ListStatus::Resources)
    } else {
        cloned(alloc, net, a, l, frames)
    }
}

fn handled_as(
    alloc: Global,
    net: &PlainNet,
    a: &Attached,
    l: &LiveList,
    keeps: bool,
    made: Option<Frames>,
) -> Result<Vec<Row>, OutOfMemory>
    ensures { IfOk result (λ rows. rows.items ≡ handled_as net.now a.now l.now keeps made) }
{
    match made {
        None => turned_back(
            alloc,
            net.modules(),
            l,
            ModuleId::Filter(a.filter),
            ListStatus::Dropped,
        ),
        Some(frames) => {
            if same_frames(&frames, &l.frames) {
                stays(alloc, net, a, l, keeps)
            } else {
                changes(alloc, net, a, l, &frames)
            }
        }
    }
}

fn given_by(d: Direction) -> Handler
    ensures { result ≡ given_by d }
{
    match d {
        Direction::Down => Handler::Send,
        Direction::Up => Handler::Receive,
        Direction::Lent => Handler::ReceiveLent,
    }
}

/// The rows by which a filter handles a list that it is given.
pub fn filter_rows(
    alloc: Global,
    net: &PlainNet,
    a: &Attached,
    l: &LiveList,
    keeps: bool,
) -> Result<Vec<Row>, OutOfMemory>
    ensures { IfOk result (λ rows. rows.items ≡ filter_rows net.now a.now l.now keeps) }
{
    let give = Row::Give {
        list: l.list,
        module: ModuleId::Filter(a.filter),
        handler: given_by(l.direction),
    };
    let made = made_of(alloc, net, a, l)?;
    row_before(give, handled_as(alloc, net, a, l, keeps, made)?)
}

/// The rows of a list at a filter, none where the stack has no such filter.
pub fn at_filter(
    alloc: Global,
    net: &PlainNet,
    a: Option<&Attached>,
    l: &LiveList,
    keeps: bool,
) -> Result<Vec<Row>, OutOfMemory>
    ensures { IfOk result (λ rows. rows.items ≡ at_filter net.now (option_copied a.entry) l.now keeps) }
{
    match a {
        None => Ok(no_rows(alloc)),
        Some(a) => filter_rows(alloc, net, a, l, keeps),
    }
}
