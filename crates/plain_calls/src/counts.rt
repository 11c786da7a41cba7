//! How often a journal calls a module's driver.
ghost use Rattle.std.specs.Prelude.{◌≡◌, IfOk, count_by, sum_by};
ghost use Rattle.promise_rules.specs.Calls.{same_called, is_call_of, calls_at, served};

use crate::calls::calls_at;
use journal_types::{Row, Turn};
use ndis_base::{ModuleId, OutOfMemory};
use plain_parts::rows::sum_of;
use plain_parts::same::same_module;
use promise_rules::{Call, Called};
use std::alloc::Global;

fn same_called(a: Called, b: Called) -> bool
    ensures { result ≡ same_called a b }
{
    match a {
        Called::Send => matches!(b, Called::Send),
        Called::SendComplete => matches!(b, Called::SendComplete),
        Called::Receive => matches!(b, Called::Receive),
        Called::ReceiveLent => matches!(b, Called::ReceiveLent),
        Called::Returned => matches!(b, Called::Returned),
        Called::Oid => matches!(b, Called::Oid),
        Called::OidComplete => matches!(b, Called::OidComplete),
        Called::Status => matches!(b, Called::Status),
    }
}

fn is_call_of(m: ModuleId, what: Called, call: &Call) -> bool
    ensures { result ≡ is_call_of m what call.now }
{
    same_module(call.module_id, m) && same_called(call.what, what)
}

fn count_calls(m: ModuleId, what: Called, calls: &[Call]) -> usize
    ensures { result ≡ count_by (is_call_of m what) calls.now }
{
    let mut n = 0;
    for call in calls {
        if is_call_of(m, what, call) {
            n += 1;
        }
    }
    n
}

fn served_in(
    alloc: Global,
    turns: &[Turn],
    m: ModuleId,
    what: Called,
    rows: &[Row],
) -> Result<u64, OutOfMemory>
    ensures { IfOk result (λ n. n ≡ sum_by (λ r. count_by (is_call_of m what) (calls_at turns.now r)) rows.now) }
{
    match rows {
        [] => Ok(0),
        [row, others @ ..] => {
            let calls = calls_at(alloc, turns, row)?;
            let here = count_calls(m, what, calls.as_slice()) as u64;
            sum_of(here, served_in(alloc, turns, m, what, others)?)
        }
    }
}

fn served_from(
    alloc: Global,
    whole: &[Turn],
    m: ModuleId,
    what: Called,
    turns: &[Turn],
) -> Result<u64, OutOfMemory>
    ensures { IfOk result (λ n. n ≡ sum_by (λ t. sum_by (λ r. count_by (is_call_of m what) (calls_at whole.now r)) t.rows) turns.now) }
{
    match turns {
        [] => Ok(0),
        [turn, others @ ..] => {
            let here = served_in(alloc, whole, m, what, turn.rows.items())?;
            sum_of(here, served_from(alloc, whole, m, what, others)?)
        }
    }
}

/// How often a journal calls a module's driver for this. A count past the greatest number counts as want of
/// memory.
pub fn served(alloc: Global, turns: &[Turn], m: ModuleId, what: Called) -> Result<u64, OutOfMemory>
    ensures { IfOk result (λ n. n ≡ served turns.now m what) }
{
    served_from(alloc, turns, m, what, turns)
}
