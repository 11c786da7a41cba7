//! What keeps a stack from changing: statuses on their way, and requests.
ghost use Rattle.std.specs.Prelude.{◌≡◌, not, IfOk, count_by};
ghost use Rattle.stack_rules.specs.Pauses.{is_status_thing, live_items, halt_items};
ghost use Rattle.stack_rules.specs.Requests.{is_at_entry};

use ndis_base::OutOfMemory;
use plain_net::PlainNet;
use plain_oids::requests::is_at_entry;
use plain_parts::rows::sum_of;
use stack_rules::{Request, Thing};

fn is_status_thing(t: &Thing) -> bool
    ensures { result ≡ is_status_thing t.now }
{
    match t {
        Thing::Status(_) => true,
        Thing::List(_) => false,
        Thing::Answer(_) => false,
    }
}

fn count_statuses(things: &[Thing]) -> u64
    ensures { result ≡ count_by is_status_thing things.now }
{
    let mut n = 0;
    for t in things {
        if is_status_thing(t) {
            n += 1;
        }
    }
    n
}

fn count_left(requests: &[Request]) -> u64
    ensures { result ≡ count_by (λ r. not (is_at_entry r.at)) requests.now }
{
    let mut n = 0;
    for r in requests {
        if !is_at_entry(r.at) {
            n += 1;
        }
    }
    n
}

/// How many statuses are on their way, and requests have left the entry and aren't done.
pub fn live_items(net: &PlainNet) -> Result<u64, OutOfMemory>
    ensures { IfOk result (λ n. n ≡ live_items net.now) }
{
    sum_of(count_statuses(net.things()), count_left(net.requests()))
}

/// How many statuses are on their way, and requests aren't done.
pub fn halt_items(net: &PlainNet) -> Result<u64, OutOfMemory>
    ensures { IfOk result (λ n. n ≡ halt_items net.now) }
{
    sum_of(count_statuses(net.things()), net.requests().len() as u64)
}
