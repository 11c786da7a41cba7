//! A pump works the first item on its way; where there is none, a request that may be worked.
ghost use Rattle.std.specs.Prelude.{◌≡◌, IfOk, option_copied};
ghost use Rattle.journal_types.specs.declared.Target.TheVariants.{Module, Bindings};
ghost use Rattle.stack_rules.specs.declared.Stand.TheVariants as stand;
ghost use Rattle.stack_rules.specs.Pumps.{moved_rows, thing_rows, request_pump, pump_of, pump_outcome, is_pump_moving};

use journal_types::{PassWay, Reply, Row, Target};
use ndis_base::{ModuleId, OutOfMemory};
use plain_deliveries::dones::homeward_rows;
use plain_net::PlainNet;
use plain_oids::requests::{PlainGiving, answer_rows, giving_rows, next_giving};
use plain_oids::statuses::status_rows;
use plain_parts::rows::no_rows;
use plain_places::PlainOutcome;
use plain_places::lists::agenda_first;
use plain_places::outcome::answered;
use plain_receives::receives::up_rows;
use plain_sends::sends::down_rows;
use stack_rules::{LiveList, Stand, Thing};
use std::alloc::Global;

fn passed_to_module(
    alloc: Global,
    net: &PlainNet,
    l: &LiveList,
    by: PassWay,
    m: ModuleId,
    keeps: bool,
) -> Result<Vec<Row>, OutOfMemory>
    ensures { IfOk result (λ rows. rows.items ≡ moved_rows net.now l.now (stand.Passed by (Module m)) keeps) }
{
    match by {
        PassWay::Down => down_rows(alloc, net, l, m, keeps),
        PassWay::Up => up_rows(alloc, net, l, Target::Module(m), keeps),
        PassWay::Done(status) => homeward_rows(alloc, net, l, m, status),
        PassWay::Back(status) => homeward_rows(alloc, net, l, m, status),
    }
}

fn passed_to_bindings(
    alloc: Global,
    net: &PlainNet,
    l: &LiveList,
    by: PassWay,
    keeps: bool,
) -> Result<Vec<Row>, OutOfMemory>
    ensures { IfOk result (λ rows. rows.items ≡ moved_rows net.now l.now (stand.Passed by Bindings) keeps) }
{
    match by {
        PassWay::Down => Ok(no_rows(alloc)),
        PassWay::Up => up_rows(alloc, net, l, Target::Bindings, keeps),
        PassWay::Done(_) => Ok(no_rows(alloc)),
        PassWay::Back(_) => Ok(no_rows(alloc)),
    }
}

fn passed_rows(
    alloc: Global,
    net: &PlainNet,
    l: &LiveList,
    by: PassWay,
    to: Target,
    keeps: bool,
) -> Result<Vec<Row>, OutOfMemory>
    ensures { IfOk result (λ rows. rows.items ≡ moved_rows net.now l.now (stand.Passed by to) keeps) }
{
    match to {
        Target::Module(m) => passed_to_module(alloc, net, l, by, m, keeps),
        Target::Bindings => passed_to_bindings(alloc, net, l, by, keeps),
    }
}

/// A list on its way is worked.
fn moved_rows(
    alloc: Global,
    net: &PlainNet,
    l: &LiveList,
    keeps: bool,
) -> Result<Vec<Row>, OutOfMemory>
    ensures { IfOk result (λ rows. rows.items ≡ moved_rows net.now l.now l.now.stand keeps) }
{
    match l.stand {
        Stand::Passed { way, to } => passed_rows(alloc, net, l, way, to, keeps),
        Stand::Unplaced => Ok(no_rows(alloc)),
        Stand::Kept(_) => Ok(no_rows(alloc)),
    }
}

fn thing_rows(
    alloc: Global,
    net: &PlainNet,
    t: &Thing,
    keeps: bool,
) -> Result<Vec<Row>, OutOfMemory>
    ensures { IfOk result (λ rows. rows.items ≡ thing_rows net.now t.now keeps) }
{
    match t {
        Thing::List(l) => moved_rows(alloc, net, l, keeps),
        Thing::Status(s) => status_rows(alloc, net, s.number, s.name, s.to),
        Thing::Answer(a) => answer_rows(alloc, a.parent, a.status, &a.value),
    }
}

fn request_pump(
    alloc: Global,
    net: &PlainNet,
    g: Option<PlainGiving>,
) -> Result<PlainOutcome, OutOfMemory>
    ensures { IfOk result (λ o. o ≡ request_pump net.now g) }
{
    match g {
        None => Ok(answered(alloc, Reply::Idle)),
        Some(g) => {
            let rows = giving_rows(alloc, net, &g)?;
            Ok(PlainOutcome::of(Reply::Moved, rows))
        }
    }
}

fn pump_of(
    alloc: Global,
    net: &PlainNet,
    keeps: bool,
    t: Option<&Thing>,
) -> Result<PlainOutcome, OutOfMemory>
    ensures { IfOk result (λ o. o ≡ pump_of net.now keeps (option_copied t.entry)) }
{
    match t {
        None => request_pump(alloc, net, next_giving(alloc, net)?),
        Some(t) => {
            let rows = thing_rows(alloc, net, t, keeps)?;
            Ok(PlainOutcome::of(Reply::Moved, rows))
        }
    }
}

pub fn pump_outcome(alloc: Global, net: &PlainNet, keeps: bool) -> Result<PlainOutcome, OutOfMemory>
    ensures { IfOk result (λ o. o ≡ pump_outcome net.now keeps) }
{
    pump_of(alloc, net, keeps, agenda_first(net))
}

/// Whether a pump would move something.
pub fn pump_moves(alloc: Global, net: &PlainNet) -> Result<bool, OutOfMemory>
    ensures { IfOk result (λ moves. moves ≡ is_pump_moving net.now) }
{
    let giving = next_giving(alloc, net)?;
    Ok(agenda_first(net).is_some() || giving.is_some())
}
