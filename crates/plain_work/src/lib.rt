//! How much there is still to do in a stack: the measure that each pump and each drain lowers. A number
//! past the greatest counts as want of memory.
#![tactic(auto)]

ghost use Rattle.std.specs.Prelude.{◌≡◌, ◌+◌, ◌*◌, ◌-◌, IfOk, count_by, sum_by, option_copied};
ghost use Rattle.stack_rules.specs.Tests.{is_echo};
ghost use Rattle.stack_rules.specs.Heads.{kind_of_binding};
ghost use Rattle.stack_rules.specs.Places.{position, position_of_target};
ghost use Rattle.stack_rules.specs.Work.{bottom, echo_count, up_work, kept_work, list_work, given_position, holder_position, thing_work, request_work, work};

use journal_types::{PassWay, StackHead, Target};
use ndis_base::{ModuleId, OutOfMemory};
use plain_net::PlainNet;
use plain_parts::rows::sum_of;
use plain_parts::same::{is_down, is_echo, is_running_phase};
use plain_places::lists::{binding_numbers, waits};
use plain_places::places::position;
use plain_ports::messages::kind_of_binding;
use plain_state::requests::request_of;
use stack_rules::{LiveList, Request, RequestAt, Stand, Thing};
use std::alloc::Global;

fn product_of(n: u64, many: u64) -> Result<u64, OutOfMemory>
    ensures { IfOk result (λ product. product ≡ n * many) }
{
    match n.checked_mul(many) {
        None => Err(OutOfMemory),
        Some(product) => Ok(product),
    }
}

fn position_of(net: &PlainNet, m: ModuleId) -> u64
    ensures { result ≡ position net.now.modules.order m }
{
    position(net.modules().order(), m) as u64
}

fn position_of_target(net: &PlainNet, to: Target) -> u64
    ensures { result ≡ position_of_target net.now.modules.order to }
{
    match to {
        Target::Module(m) => position_of(net, m),
        Target::Bindings => 0,
    }
}

fn bottom(net: &PlainNet) -> u64
    ensures { result ≡ bottom net.now }
{
    position_of(net, ModuleId::Miniport)
}

fn count_echoes(head: &StackHead, bindings: &[u32]) -> u64
    ensures { result ≡ count_by (λ b. is_echo (kind_of_binding head.now b)) bindings.now }
{
    let mut n = 0;
    for b in bindings {
        if is_echo(kind_of_binding(head, *b)) {
            n += 1;
        }
    }
    n
}

fn echo_count(alloc: Global, net: &PlainNet) -> Result<u64, OutOfMemory>
    ensures { IfOk result (λ n. n ≡ echo_count net.now) }
{
    if is_running_phase(net.phase()) {
        let bindings = binding_numbers(alloc, net.head())?;
        Ok(count_echoes(net.head(), bindings.as_slice()))
    } else {
        Ok(0)
    }
}

// How far a receive has to go from a position, with the sends of the echo bindings.
fn up_work(alloc: Global, net: &PlainNet, at: u64) -> Result<u64, OutOfMemory>
    ensures { IfOk result (λ n. n ≡ up_work net.now at) }
{
    let way = sum_of(sum_of(product_of(2, at)?, bottom(net))?, 1)?;
    let echoes = product_of(product_of(3, bottom(net))?, echo_count(alloc, net)?)?;
    sum_of(way, echoes)
}

// How far a send has to go from a position, and its answer from the miniport on.
fn down_work(net: &PlainNet, at: u64) -> Result<u64, OutOfMemory>
    ensures { IfOk result (λ n. n ≡ 2 * (bottom net.now - at) + bottom net.now) }
{
    let way = product_of(2, bottom(net).saturating_sub(at))?;
    sum_of(way, bottom(net))
}

fn kept_work(alloc: Global, net: &PlainNet, down: bool, m: ModuleId) -> Result<u64, OutOfMemory>
    ensures { IfOk result (λ n. n ≡ kept_work net.now down m) }
{
    if down {
        sum_of(down_work(net, position_of(net, m))?, 1)
    } else if matches!(m, ModuleId::Binding(_)) {
        sum_of(bottom(net), 1)
    } else {
        up_work(alloc, net, position_of(net, m))
    }
}

fn list_work(alloc: Global, net: &PlainNet, l: &LiveList, at: Stand) -> Result<u64, OutOfMemory>
    ensures { IfOk result (λ n. n ≡ list_work net.now l.now at) }
{
    match at {
        Stand::Unplaced => Ok(0),
        Stand::Kept(m) => kept_work(alloc, net, is_down(l.direction), m),
        Stand::Passed { way, to } => {
            let at = position_of_target(net, to);
            match way {
                PassWay::Down => sum_of(down_work(net, at)?, 2),
                PassWay::Done(_) => sum_of(at, 1),
                PassWay::Up => sum_of(up_work(alloc, net, at)?, 1),
                PassWay::Back(_) => sum_of(bottom(net).saturating_sub(at), 1),
            }
        }
    }
}

fn given_position(net: &PlainNet, at: RequestAt) -> u64
    ensures { result ≡ given_position net.now at }
{
    match at {
        RequestAt::Given(m) => position_of(net, m),
        _ => 0,
    }
}

fn holder_position(net: &PlainNet, r: Option<&Request>) -> u64
    ensures { result ≡ holder_position net.now (option_copied r.entry) }
{
    match r {
        None => 0,
        Some(r) => given_position(net, r.at),
    }
}

fn thing_work(alloc: Global, net: &PlainNet, t: &Thing) -> Result<u64, OutOfMemory>
    ensures { IfOk result (λ n. n ≡ thing_work net.now t.now) }
{
    match t {
        Thing::List(l) => {
            if waits(net, l) {
                Ok(0)
            } else {
                list_work(alloc, net, l, l.stand)
            }
        }
        Thing::Status(s) => sum_of(position_of_target(net, s.to), 1),
        Thing::Answer(a) => Ok(holder_position(net, request_of(a.parent.0, net.requests()))),
    }
}

fn things_work(alloc: Global, net: &PlainNet, things: &[Thing]) -> Result<u64, OutOfMemory>
    ensures { IfOk result (λ n. n ≡ sum_by (thing_work net.now) things.now) }
{
    let mut n = 0;
    for t in things {
        n = sum_of(n, thing_work(alloc, net, t)?)?;
    }
    Ok(n)
}

fn request_work(net: &PlainNet, at: RequestAt) -> Result<u64, OutOfMemory>
    ensures { IfOk result (λ n. n ≡ request_work net.now at) }
{
    match at {
        RequestAt::Entry => Ok(product_of(2, bottom(net))?.saturating_sub(1)),
        RequestAt::Waiting(m) => Ok(product_of(2, bottom(net))?.saturating_sub(position_of(
            net, m,
        ))),
        RequestAt::Given(_) => Ok(0),
    }
}

fn requests_work(net: &PlainNet, requests: &[Request]) -> Result<u64, OutOfMemory>
    ensures { IfOk result (λ n. n ≡ sum_by (λ r. request_work net.now r.at) requests.now) }
{
    let mut n = 0;
    for r in requests {
        n = sum_of(n, request_work(net, r.at)?)?;
    }
    Ok(n)
}

/// How much there is still to do: for each list, status, answer and request how far it has to go.
pub fn work(alloc: Global, net: &PlainNet) -> Result<u64, OutOfMemory>
    ensures { IfOk result (λ n. n ≡ work net.now) }
{
    let things = things_work(alloc, net, net.things())?;
    sum_of(things, requests_work(net, net.requests())?)
}
