//! Receives: owned indications on their way up, and lists that are lent for the time of one turn.
ghost use Rattle.std.specs.Prelude.{◌≡◌, ◌∷◌, IfOk, None, option_copied, filter, reverse};
ghost use Rattle.ndis_base.specs.declared.ModuleId.TheVariants.{Filter};
ghost use Rattle.ndis_base.specs.declared.Origin.TheVariants as origin;
ghost use Rattle.ndis_base.specs.declared.Direction.TheVariants as direction;
ghost use Rattle.journal_types.specs.declared.Row.TheVariants as row;
ghost use Rattle.journal_types.specs.declared.Handler.TheVariants as handler;
ghost use Rattle.journal_types.specs.declared.Target.TheVariants as target;
ghost use Rattle.program_types.specs.Apply.{applied};
ghost use Rattle.stack_rules.specs.Outcome.{list_no, config_no};
ghost use Rattle.stack_rules.specs.Receives.{up_at_filter, up_rows, indicated, indicate_outcome, lent_home, lent_back, copied, lent_changes, lent_handled, lent_at, lent_delivery, lent_up, lent_rows, lend_outcome, give_back_of, give_back_outcome};
ghost use Rattle.stack_rules.specs.Targets.{has_receive};

use journal_types::{Frames, Handler, How, Refusal, Reply, Row, Target};
use ndis_base::{
    ConfigNo, Direction, ListNo, ListStatus, ModuleId, ModuleState, Origin, OutOfMemory,
};
use plain_deliveries::deliveries::{delivered, delivery_rows, takers};
use plain_net::PlainNet;
use plain_parts::copies::copy_frames;
use plain_parts::rows::{next_number, no_rows, one_row, row_before, rows_and, two_rows};
use plain_parts::same::{is_running_phase, same_frames};
use plain_places::PlainOutcome;
use plain_places::lists::is_full;
use plain_places::outcome::{MAX_FRAME, refused, root};
use plain_places::places::{is_kept_by, position};
use plain_places::targets::{homeward, onward, reversed, turned_back};
use plain_programs::rules::applied;
use plain_sends::handled::filter_rows;
use plain_things::things::list_of;
use stack_rules::{Attached, LiveList};
use std::alloc::Global;

/// A module that isn't Running turns a receive back.
fn up_at_filter(
    alloc: Global,
    net: &PlainNet,
    a: Option<&Attached>,
    l: &LiveList,
    keeps: bool,
) -> Result<Vec<Row>, OutOfMemory>
    ensures { IfOk result (λ rows. rows.items ≡ up_at_filter net.now (option_copied a.entry) l.now keeps) }
{
    match a {
        None => Ok(no_rows(alloc)),
        Some(a) => {
            if matches!(a.state, ModuleState::Running) {
                filter_rows(alloc, net, a, l, keeps)
            } else {
                turned_back(
                    alloc,
                    net.modules(),
                    l,
                    ModuleId::Filter(a.filter),
                    ListStatus::Paused,
                )
            }
        }
    }
}

fn up_at_bindings(
    alloc: Global,
    net: &PlainNet,
    l: &LiveList,
    keeps: bool,
) -> Result<Vec<Row>, OutOfMemory>
    ensures { IfOk result (λ rows. rows.items ≡ up_rows net.now l.now target.Bindings keeps) }
{
    if is_running_phase(net.phase()) {
        delivery_rows(alloc, net, l, keeps)
    } else {
        turned_back(
            alloc,
            net.modules(),
            l,
            ModuleId::Binding(0),
            ListStatus::Paused,
        )
    }
}

/// The rows of a list on its way up, at a filter or at the bindings; the first binding turns back for all.
pub fn up_rows(
    alloc: Global,
    net: &PlainNet,
    l: &LiveList,
    to: Target,
    keeps: bool,
) -> Result<Vec<Row>, OutOfMemory>
    ensures { IfOk result (λ rows. rows.items ≡ up_rows net.now l.now to keeps) }
{
    match to {
        Target::Bindings => up_at_bindings(alloc, net, l, keeps),
        Target::Module(m) => match m {
            ModuleId::Filter(f) => up_at_filter(alloc, net, net.modules().attached(f), l, keeps),
            ModuleId::Miniport => Ok(no_rows(alloc)),
            ModuleId::Binding(_) => Ok(no_rows(alloc)),
        },
    }
}

/// The miniport indicates a list of its own.
pub fn indicated(alloc: Global, net: &PlainNet, frames: &Frames) -> Result<Vec<Row>, OutOfMemory>
    ensures { IfOk result (λ rows. rows.items ≡ indicated net.now frames.now) }
{
    let n = net.next().list();
    let ms = net.modules();
    let issue = root(
        alloc,
        net,
        n,
        ModuleId::Miniport,
        Direction::Up,
        None,
        frames,
    )?;
    let at = position(ms.order(), ModuleId::Miniport);
    two_rows(
        alloc,
        issue,
        onward(alloc, ms, ListNo(n), Direction::Up, at)?,
    )
}

/// The miniport indicates frames that came in: refused where it isn't Running, or its pool has no list.
pub fn indicate_outcome(
    alloc: Global,
    net: &PlainNet,
    frames: &Frames,
) -> Result<PlainOutcome, OutOfMemory>
    ensures { IfOk result (λ o. o ≡ indicate_outcome net.now frames.now) }
{
    if !matches!(net.modules().miniport(), ModuleState::Running) {
        return Ok(refused(alloc, Refusal::NotRunning));
    }
    if is_full(net, ModuleId::Miniport) {
        return Ok(refused(alloc, Refusal::NoList));
    }
    let rows = indicated(alloc, net, frames)?;
    Ok(PlainOutcome::of(
        Reply::Indicated {
            list: ListNo(net.next().list()),
        },
        rows,
    ))
}

/// A lent list is home where it stops.
fn lent_home(alloc: Global, list: ListNo, status: ListStatus) -> Result<Vec<Row>, OutOfMemory>
    ensures { IfOk result (λ rows. rows.items ≡ lent_home list status) }
{
    one_row(
        alloc,
        Row::Home {
            list,
            owner: ModuleId::Miniport,
            status,
        },
    )
}

fn lent_back(
    alloc: Global,
    list: ListNo,
    m: ModuleId,
    status: ListStatus,
) -> Result<Vec<Row>, OutOfMemory>
    ensures { IfOk result (λ rows. rows.items ≡ lent_back list m status) }
{
    let turned = Row::TurnBack {
        list,
        module: m,
        status,
    };
    row_before(turned, lent_home(alloc, list, status)?)
}

fn copy_row(
    alloc: Global,
    net: &PlainNet,
    a: &Attached,
    list: ListNo,
    copy: u64,
    frames: &Frames,
) -> Result<Row, OutOfMemory>
    ensures { IfOk result (λ made. made ≡ row.Issue (list_no copy) (Filter a.now.filter) (config_no net.now.modules.config) direction.Up None (origin.Copy list) frames.now) }
{
    Ok(Row::Issue {
        list: ListNo(copy),
        owner: ModuleId::Filter(a.filter),
        config: ConfigNo(net.modules().config()),
        direction: Direction::Up,
        cancel: None,
        origin: Origin::Copy(list),
        frames: copy_frames(alloc, frames)?,
    })
}

/// A filter that changes a lent list sends a copy in its place.
fn copied(
    alloc: Global,
    net: &PlainNet,
    a: &Attached,
    list: ListNo,
    frames: &Frames,
) -> Result<Vec<Row>, OutOfMemory>
    ensures { IfOk result (λ rows. rows.items ≡ copied net.now a.now list frames.now) }
{
    let copy = next_number(net.next().list())?;
    let ms = net.modules();
    let issue = copy_row(alloc, net, a, list, copy, frames)?;
    let at = position(ms.order(), ModuleId::Filter(a.filter));
    let pass = onward(alloc, ms, ListNo(copy), Direction::Up, at)?;
    let home = lent_home(alloc, list, ListStatus::Success)?;
    row_before(issue, row_before(pass, home)?)
}

fn lent_changes(
    alloc: Global,
    net: &PlainNet,
    a: &Attached,
    list: ListNo,
    frames: &Frames,
) -> Result<Vec<Row>, OutOfMemory>
    ensures { IfOk result (λ rows. rows.items ≡ lent_changes net.now a.now list frames.now) }
{
    let f = ModuleId::Filter(a.filter);
    if is_full(net, f) {
        lent_back(alloc, list, f, ListStatus::Resources)
    } else {
        copied(alloc, net, a, list, frames)
    }
}

/// At a filter: further is what happens further up.
fn lent_handled(
    alloc: Global,
    net: &PlainNet,
    a: &Attached,
    list: ListNo,
    frames: &Frames,
    further: Vec<Row>,
    made: Option<Frames>,
) -> Result<Vec<Row>, OutOfMemory>
    ensures { IfOk result (λ rows. rows.items ≡ lent_handled net.now a.now list frames.now further.items made) }
{
    match made {
        None => lent_back(alloc, list, ModuleId::Filter(a.filter), ListStatus::Dropped),
        Some(made) => {
            if same_frames(&made, frames) {
                Ok(further)
            } else {
                lent_changes(alloc, net, a, list, &made)
            }
        }
    }
}

fn lent_at(
    alloc: Global,
    net: &PlainNet,
    a: Option<&Attached>,
    list: ListNo,
    frames: &Frames,
    further: Vec<Row>,
) -> Result<Vec<Row>, OutOfMemory>
    ensures { IfOk result (λ rows. rows.items ≡ lent_at net.now (option_copied a.entry) list frames.now further.items) }
{
    match a {
        None => Ok(further),
        Some(a) => {
            if matches!(a.state, ModuleState::Running) {
                lent_given(alloc, net, a, list, frames, further)
            } else {
                lent_back(alloc, list, ModuleId::Filter(a.filter), ListStatus::Paused)
            }
        }
    }
}

fn lent_given(
    alloc: Global,
    net: &PlainNet,
    a: &Attached,
    list: ListNo,
    frames: &Frames,
    further: Vec<Row>,
) -> Result<Vec<Row>, OutOfMemory>
    ensures { IfOk result (λ rows. rows.items ≡ row.Give list (Filter a.now.filter) handler.ReceiveLent ∷ lent_handled net.now a.now list frames.now further.items (applied 1518 a.now.setup.receive frames.now)) }
{
    let give = Row::Give {
        list,
        module: ModuleId::Filter(a.filter),
        handler: Handler::ReceiveLent,
    };
    let made = applied(alloc, MAX_FRAME, &a.setup.receive, frames)?;
    row_before(
        give,
        lent_handled(alloc, net, a, list, frames, further, made)?,
    )
}

fn lent_delivery(
    alloc: Global,
    net: &PlainNet,
    list: ListNo,
    frames: &Frames,
) -> Result<Vec<Row>, OutOfMemory>
    ensures { IfOk result (λ rows. rows.items ≡ lent_delivery net.now list frames.now) }
{
    if is_running_phase(net.phase()) {
        let bindings = takers(alloc, net, frames)?;
        let n = next_number(net.next().list())?;
        let rows = delivered(alloc, net, list, frames, How::Lent, n, bindings.as_slice())?;
        rows_and(rows, lent_home(alloc, list, ListStatus::Success)?)
    } else {
        lent_back(alloc, list, ModuleId::Binding(0), ListStatus::Paused)
    }
}

/// The lent list goes up through these filters, the nearest first, to the bindings.
fn lent_up(
    alloc: Global,
    net: &PlainNet,
    list: ListNo,
    frames: &Frames,
    filters: &[u64],
) -> Result<Vec<Row>, OutOfMemory>
    ensures { IfOk result (λ rows. rows.items ≡ lent_up net.now list frames.now filters.now) }
{
    match filters {
        [] => lent_delivery(alloc, net, list, frames),
        [f, others @ ..] => {
            let further = lent_up(alloc, net, list, frames, others)?;
            lent_at(
                alloc,
                net,
                net.modules().attached(*f),
                list,
                frames,
                further,
            )
        }
    }
}

fn receiving_from_below(alloc: Global, net: &PlainNet) -> Result<Vec<u64>, OutOfMemory>
    ensures { IfOk result (λ filters. filters.items ≡ filter (has_receive net.now.modules) (reverse net.now.modules.order)) }
{
    let turned = reversed(alloc, net.modules().order())?;
    let mut filters = Vec::new(alloc);
    for f in turned {
        if net.modules().has_receive(f) {
            filters.push(f)?;
        }
    }
    Ok(filters)
}

fn lent_rows(alloc: Global, net: &PlainNet, frames: &Frames) -> Result<Vec<Row>, OutOfMemory>
    ensures { IfOk result (λ rows. rows.items ≡ lent_rows net.now frames.now) }
{
    let n = net.next().list();
    let issue = root(
        alloc,
        net,
        n,
        ModuleId::Miniport,
        Direction::Lent,
        None,
        frames,
    )?;
    let filters = receiving_from_below(alloc, net)?;
    row_before(
        issue,
        lent_up(alloc, net, ListNo(n), frames, filters.as_slice())?,
    )
}

/// The miniport lends a list for one turn: refused where it isn't Running, or its pool has no list.
pub fn lend_outcome(
    alloc: Global,
    net: &PlainNet,
    frames: &Frames,
) -> Result<PlainOutcome, OutOfMemory>
    ensures { IfOk result (λ o. o ≡ lend_outcome net.now frames.now) }
{
    if !matches!(net.modules().miniport(), ModuleState::Running) {
        return Ok(refused(alloc, Refusal::NotRunning));
    }
    if is_full(net, ModuleId::Miniport) {
        return Ok(refused(alloc, Refusal::NoList));
    }
    let rows = lent_rows(alloc, net, frames)?;
    Ok(PlainOutcome::of(
        Reply::Lent {
            list: ListNo(net.next().list()),
        },
        rows,
    ))
}

fn give_back_of(
    alloc: Global,
    net: &PlainNet,
    binding: u32,
    l: Option<&LiveList>,
) -> Result<PlainOutcome, OutOfMemory>
    ensures { IfOk result (λ o. o ≡ give_back_of net.now binding (option_copied l.entry)) }
{
    match l {
        None => Ok(refused(alloc, Refusal::NotHeld)),
        Some(l) => {
            if is_kept_by(ModuleId::Binding(binding), l.stand) {
                let rows = one_row(
                    alloc,
                    homeward(alloc, net.modules(), l, 0, ListStatus::Success)?,
                )?;
                Ok(PlainOutcome::of(Reply::Ok, rows))
            } else {
                Ok(refused(alloc, Refusal::NotHeld))
            }
        }
    }
}

/// A binding returns a list that it keeps: refused where it doesn't keep it.
pub fn give_back_outcome(
    alloc: Global,
    net: &PlainNet,
    binding: u32,
    list: ListNo,
) -> Result<PlainOutcome, OutOfMemory>
    ensures { IfOk result (λ o. o ≡ give_back_outcome net.now binding list) }
{
    give_back_of(alloc, net, binding, list_of(list.0, net.things()))
}
