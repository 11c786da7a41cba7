//! Status indications: to each filter with the status handler, and then to all bindings at once.
ghost use Rattle.std.specs.Prelude.{◌≡◌, IfOk};
ghost use Rattle.stack_rules.specs.Statuses.{status_outcome, seen_by_all, status_rows};

use journal_types::{Refusal, Reply, Row, Target};
use ndis_base::{ModuleId, ModuleState, OutOfMemory, StatusName, StatusNo};
use plain_net::PlainNet;
use plain_parts::rows::{no_rows, one_row, row_before, two_rows};
use plain_places::PlainOutcome;
use plain_places::lists::next_binding;
use plain_places::outcome::refused;
use plain_places::places::position;
use plain_places::targets::next_status;
use std::alloc::Global;

/// The miniport indicates a status: refused where it is Halted.
pub fn status_outcome(
    alloc: Global,
    net: &PlainNet,
    name: StatusName,
) -> Result<PlainOutcome, OutOfMemory>
    ensures { IfOk result (λ o. o ≡ status_outcome net.now name) }
{
    let ms = net.modules();
    if matches!(ms.miniport(), ModuleState::Halted) {
        return Ok(refused(alloc, Refusal::HaltedNow));
    }
    let away = Row::Status {
        number: StatusNo(net.next().status()),
        name,
        to: next_status(alloc, ms, position(ms.order(), ModuleId::Miniport))?,
    };
    Ok(PlainOutcome::of(Reply::Ok, one_row(alloc, away)?))
}

fn seen_by_all(
    alloc: Global,
    number: StatusNo,
    b: u32,
    bindings: &[ModuleState],
) -> Result<Vec<Row>, OutOfMemory>
    ensures { IfOk result (λ rows. rows.items ≡ seen_by_all number b bindings.now) }
{
    match bindings {
        [] => Ok(no_rows(alloc)),
        [_, others @ ..] => {
            let seen = Row::Seen {
                number,
                module: ModuleId::Binding(b),
            };
            row_before(seen, seen_by_all(alloc, number, next_binding(b)?, others)?)
        }
    }
}

/// The rows of a status on its way, at a module or at all bindings.
pub fn status_rows(
    alloc: Global,
    net: &PlainNet,
    number: StatusNo,
    name: StatusName,
    to: Target,
) -> Result<Vec<Row>, OutOfMemory>
    ensures { IfOk result (λ rows. rows.items ≡ status_rows net.now number name to) }
{
    let ms = net.modules();
    match to {
        Target::Module(m) => {
            let seen = Row::Seen { number, module: m };
            let away = Row::Status {
                number,
                name,
                to: next_status(alloc, ms, position(ms.order(), m))?,
            };
            two_rows(alloc, seen, away)
        }
        Target::Bindings => seen_by_all(alloc, number, 0, ms.bindings()),
    }
}
