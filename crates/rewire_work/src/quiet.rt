//! What a change of the filters is refused for.
ghost use Rattle.std.specs.Prelude.{◌≡◌, ◌<◌, ◌^◌, not, true, None, IfSome, count_by};
ghost use Rattle.stack_rules.specs.Pauses.{live_items, statuses_away};
ghost use Rattle.stack_rules.specs.Requests.{is_at_entry};
ghost use Rattle.stack_rules.specs.Rewires.{is_in};
ghost use Rattle.driver_tray.specs.Tray.{is_status_away};
ghost use Rattle.rewire_work.specs.Refusals.{quiet_refusal, order_refusal, insert_refusal, module_refusal, rewire_refusal};

use driver_tray::Tray;
use journal_types::Refusal;
use ndis_base::Phase;
use stack_rules::{Request, RequestAt};

const FAR: usize = 1 << 60;

fn is_moving(request: &Request) -> bool
    ensures { result ≡ not (is_at_entry request.now.at) }
{
    !matches!(request.at, RequestAt::Entry)
}

fn moving_count(requests: &[Request]) -> usize
    ensures { result ≡ count_by (λ r. not (is_at_entry r.at)) requests.now }
{
    requests.iter().filter(|request| is_moving(request)).count()
}

/// How many statuses are on their way, and requests have left the entry; None where there are 2 to the power
/// of 60 of either, which no memory can hold.
pub fn live_count(tray: &Tray) -> Option<u64>
    requires { count_by is_status_away tray.now.queue ≡ statuses_away tray.now.net }
    ensures { IfSome result (λ n. n ≡ live_items tray.now.net) }
{
    let statuses = tray.statuses_away();
    let requests = moving_count(tray.requests());
    if statuses >= FAR || requests >= FAR {
        return None;
    }
    Some((statuses + requests) as u64)
}

/// What every change of the filters is refused for first.
fn quiet_refusal(tray: &Tray, live: u64) -> Option<Refusal>
    requires { live ≡ live_items tray.now.net }
    ensures { result ≡ quiet_refusal tray.now.net }
{
    if !matches!(tray.phase(), Phase::Paused) {
        return Some(Refusal::NotPaused);
    }
    if live != 0 {
        return Some(Refusal::Busy { n: live });
    }
    None
}

/// What a position is refused for.
fn order_refusal(tray: &Tray, position: u8) -> Option<Refusal>
    ensures { result ≡ order_refusal tray.now.net position }
{
    let many = tray.order().len();
    if many == 16 {
        return Some(Refusal::Full);
    }
    if position == 0 || position as usize - 1 > many {
        return Some(Refusal::BadPosition);
    }
    None
}

/// What an insertion is refused for, before any driver is asked.
pub fn insert_refusal(tray: &Tray, live: u64, position: u8) -> Option<Refusal>
    requires { live ≡ live_items tray.now.net }
    ensures { result ≡ insert_refusal tray.now.net position }
{
    match quiet_refusal(tray, live) {
        Some(cause) => Some(cause),
        None => order_refusal(tray, position),
    }
}

/// What a filter is refused for.
fn module_refusal(tray: &Tray, filter: u64) -> Option<Refusal>
    ensures { result ≡ module_refusal tray.now.net filter }
{
    if is_in(filter, tray.order()) {
        None
    } else {
        Some(Refusal::NoModule)
    }
}

/// What a removal or a replacement is refused for, before any driver is asked.
pub fn rewire_refusal(tray: &Tray, live: u64, filter: u64) -> Option<Refusal>
    requires { live ≡ live_items tray.now.net }
    ensures { result ≡ rewire_refusal tray.now.net filter }
{
    match quiet_refusal(tray, live) {
        Some(cause) => Some(cause),
        None => module_refusal(tray, filter),
    }
}

fn is_in(filter: u64, order: &[u64]) -> bool
    ensures { result ≡ is_in filter order.now }
{
    order.iter().any(|other| *other == filter)
}

/// Whether the numbers of the next filter and the next configuration are far from the largest: below 2 to
/// the power of 60, which no run can reach.
pub fn is_low(tray: &Tray) -> bool
    ensures filter { result ≡ true → tray.now.net.next.filter < 2 ^ 60 }
    ensures config { result ≡ true → tray.now.net.modules.config < 2 ^ 60 }
{
    tray.next_filter() < 1 << 60 && tray.config().0 < 1 << 60
}
