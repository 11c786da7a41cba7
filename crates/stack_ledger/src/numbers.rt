//! The numbers that come next.
ghost use Rattle.std.specs.Prelude.{◌≡◌, ◌+◌, ◌<◌, ◌^◌};
ghost use Rattle.stack_rules.specs.Net.{number_past, filter_after};
ghost use Rattle.stack_ledger.specs.Bare.{filter_number};

use ndis_base::{ModuleId, ModuleState};
use std::marker::Model;

/// The numbers of the next list, request, status, message and filter.
#[derive(Clone, Copy)]
pub struct NextNumbers {
    pub list: u64,
    pub request: u64,
    pub status: u64,
    pub message: u64,
    pub filter: u64,
}

/// All numbers begin with 1.
pub fn first_numbers() -> NextNumbers
    ensures { result ≡ record { list = 1; request = 1; status = 1; message = 1; filter = 1 } }
{
    NextNumbers {
        list: 1,
        request: 1,
        status: 1,
        message: 1,
        filter: 1,
    }
}

/// The number after this one, where it is the next.
pub fn number_past(next: u64, n: u64) -> u64
    requires { next + 1 < 2 ^ 64 }
    ensures { result ≡ number_past next n }
{
    if n == next { next + 1 } else { next }
}

/// The number of the next filter, after a module took a state.
pub fn filter_after(m: ModuleId, s: ModuleState, next: u64) -> u64
    requires { filter_number m + 1 < 2 ^ 64 }
    ensures { result ≡ filter_after m s next }
{
    match m {
        ModuleId::Filter(f) => match s {
            ModuleState::Attaching => f + 1,
            _ => next,
        },
        _ => next,
    }
}
