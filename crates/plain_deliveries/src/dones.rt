//! Lists on their way home.
ghost use Rattle.std.specs.Prelude.{◌≡◌, IfOk, option_copied};
ghost use Rattle.stack_rules.specs.Dones.{released_list, released, home_rows, completed_by, homeward_rows};

use journal_types::{Handler, Row};
use ndis_base::{Direction, ListStatus, ModuleId, Origin, OutOfMemory};
use plain_net::PlainNet;
use plain_parts::rows::{no_rows, one_row, row_before, two_rows};
use plain_parts::same::same_module;
use plain_places::places::position;
use plain_places::targets::homeward;
use plain_things::things::list_of;
use stack_rules::LiveList;
use std::alloc::Global;

fn released_list(
    alloc: Global,
    net: &PlainNet,
    m: ModuleId,
    status: ListStatus,
    original: Option<&LiveList>,
) -> Result<Vec<Row>, OutOfMemory>
    ensures { IfOk result (λ rows. rows.items ≡ released_list net.now m status (option_copied original.entry)) }
{
    match original {
        None => Ok(no_rows(alloc)),
        Some(original) => {
            let ms = net.modules();
            one_row(
                alloc,
                homeward(alloc, ms, original, position(ms.order(), m), status)?,
            )
        }
    }
}

/// The original of a clone that is home goes homewards with the clone's status.
fn released(
    alloc: Global,
    net: &PlainNet,
    m: ModuleId,
    origin: Origin,
    status: ListStatus,
) -> Result<Vec<Row>, OutOfMemory>
    ensures { IfOk result (λ rows. rows.items ≡ released net.now m origin status) }
{
    match origin {
        Origin::Root => Ok(no_rows(alloc)),
        Origin::Clone(o) => released_list(alloc, net, m, status, list_of(o.0, net.things())),
        Origin::Copy(_) => Ok(no_rows(alloc)),
    }
}

fn home_rows(
    alloc: Global,
    net: &PlainNet,
    l: &LiveList,
    status: ListStatus,
) -> Result<Vec<Row>, OutOfMemory>
    ensures { IfOk result (λ rows. rows.items ≡ home_rows net.now l.now status) }
{
    let home = Row::Home {
        list: l.list,
        owner: l.owner,
        status,
    };
    row_before(home, released(alloc, net, l.owner, l.origin, status)?)
}

fn completed_by(d: Direction) -> Handler
    ensures { result ≡ completed_by d }
{
    match d {
        Direction::Down => Handler::SendComplete,
        Direction::Up => Handler::Returned,
        Direction::Lent => Handler::Returned,
    }
}

/// The rows of a list on its way home, done or returned, at the module that it comes to.
pub fn homeward_rows(
    alloc: Global,
    net: &PlainNet,
    l: &LiveList,
    m: ModuleId,
    status: ListStatus,
) -> Result<Vec<Row>, OutOfMemory>
    ensures { IfOk result (λ rows. rows.items ≡ homeward_rows net.now l.now m status) }
{
    if same_module(m, l.owner) {
        home_rows(alloc, net, l, status)
    } else {
        let ms = net.modules();
        let give = Row::Give {
            list: l.list,
            module: m,
            handler: completed_by(l.direction),
        };
        two_rows(
            alloc,
            give,
            homeward(alloc, ms, l, position(ms.order(), m), status)?,
        )
    }
}
