//! The filters that are attached.
ghost use Rattle.std.specs.Prelude.{◌≡◌, ◌==◌, ◌≤◌, not, None, Some, option_copied, option_map, filter, map};
ghost use Rattle.std.specs.Vec.{vec_len, vec_capacity};
ghost use Rattle.ndis_base.specs.declared.ModuleState.TheVariants as state;
ghost use Rattle.stack_rules.specs.Net.{attached, with_state, is_detached, filters_after, handlers_of};
ghost use Rattle.stack_rules.specs.Places.{pool_in, state_in};
ghost use Rattle.stack_rules.specs.Cancels.{hold_in};
ghost use Rattle.stack_modules.specs.Entries.{new_entry};

use crate::image::ProgramImage;
use journal_types::Setup;
use ndis_base::{FilterKind, Handlers, ModuleState};
use std::marker::Model;

/// A filter that is attached. Of its programs it has only images.
#[derive(Drop)]
pub struct FilterEntry {
    filter: u64,
    kind: FilterKind,
    handlers: Handlers,
    pool: usize,
    send: ProgramImage,
    receive: ProgramImage,
    state: ModuleState,
}

impl Model for FilterEntry {
    ghost use Rattle.stack_rules.specs.declared.Attached.{Attached};

    ghost Value = { Attached };

    ghost view = { λ e. record { filter = e.filter; kind = e.kind; setup = record { handlers = e.handlers; pool = e.pool; send = e.send.rules; receive = e.receive.rules }; state = e.state } };
}

/// The entry of a new filter, which is Detached.
pub fn new_entry(filter: u64, kind: FilterKind, setup: &Setup) -> FilterEntry
    ensures { result ≡ new_entry filter kind setup.now }
{
    FilterEntry {
        filter,
        kind,
        handlers: setup.handlers,
        pool: setup.pool,
        send: ProgramImage::of(&setup.send),
        receive: ProgramImage::of(&setup.receive),
        state: ModuleState::Detached,
    }
}

impl FilterEntry {
    fn number(&self) -> u64
        ensures { result ≡ self.now.filter }
    {
        self.filter
    }

    fn take_state(&mut self, state: ModuleState)
        ensures { self.new ≡ record self.old { state = state } }
    {
        self.state = state;
    }

    /// What kind of filter it is.
    pub fn kind(&self) -> FilterKind
        ensures { result ≡ self.now.kind }
    {
        self.kind
    }

    /// Its handlers.
    pub fn handlers(&self) -> Handlers
        ensures { result ≡ self.now.setup.handlers }
    {
        self.handlers
    }

    /// How many lists its pool has.
    pub fn pool(&self) -> usize
        ensures { result ≡ self.now.setup.pool }
    {
        self.pool
    }

    /// Its state.
    pub fn state(&self) -> ModuleState
        ensures { result ≡ self.now.state }
    {
        self.state
    }
}

/// The attached filter of this number.
pub fn attached(f: u64, entries: &[FilterEntry]) -> Option<&FilterEntry>
    ensures { option_copied result ≡ attached f entries.now }
{
    for a in entries {
        if a.number() == f {
            return Some(a);
        }
    }
    None
}

/// A filter's handlers; a filter that isn't attached has none.
pub fn handlers_of(a: Option<&FilterEntry>) -> Handlers
    ensures { result ≡ handlers_of (option_copied a.entry) }
{
    match a {
        None => Handlers {
            send: false,
            receive: false,
            oid: false,
            status: false,
        },
        Some(a) => a.handlers(),
    }
}

/// How many lists a filter's pool has; none where it isn't attached.
pub fn pool_in(a: Option<&FilterEntry>) -> usize
    ensures { result ≡ pool_in (option_copied a.entry) }
{
    match a {
        None => 0,
        Some(a) => a.pool(),
    }
}

/// A filter's state; one that isn't attached is Detached.
pub fn state_in(a: Option<&FilterEntry>) -> ModuleState
    ensures { result ≡ state_in (option_copied a.entry) }
{
    match a {
        None => ModuleState::Detached,
        Some(a) => a.state(),
    }
}

/// What kind of filter is attached.
pub fn kind_in(a: Option<&FilterEntry>) -> Option<FilterKind>
    ensures { result ≡ option_map (λ a. a.kind) (option_copied a.entry) }
{
    match a {
        None => None,
        Some(a) => Some(a.kind()),
    }
}

/// Whether a filter is attached and is a hold filter.
pub fn hold_in(a: Option<&FilterEntry>) -> bool
    ensures { result ≡ hold_in (option_copied a.entry) }
{
    match a {
        None => false,
        Some(a) => matches!(a.kind(), FilterKind::Hold),
    }
}

fn is_detached(s: ModuleState) -> bool
    ensures { result ≡ is_detached s }
{
    matches!(s, ModuleState::Detached)
}

/// A filter takes a state; a filter that is Detached is forgotten.
pub fn take_state(f: u64, s: ModuleState, entries: &mut Vec<FilterEntry>)
    ensures after { entries.new.items ≡ filters_after f s entries.old.items }
    ensures shorter { vec_len entries.new ≤ vec_len entries.old }
    ensures capacity { vec_capacity entries.new ≡ vec_capacity entries.old }
{
    if is_detached(s) {
        forget(f, entries);
    } else {
        put_state(f, s, entries);
    }
}

fn forget(f: u64, entries: &mut Vec<FilterEntry>)
    ensures after { entries.new.items ≡ filter (λ a. not (a.filter == f)) entries.old.items }
    ensures shorter { vec_len entries.new ≤ vec_len entries.old }
    ensures capacity { vec_capacity entries.new ≡ vec_capacity entries.old }
{
    entries.retain(|a| a.filter != f);
}

fn put_state(f: u64, s: ModuleState, entries: &mut Vec<FilterEntry>)
    ensures after { entries.new.items ≡ map (with_state f s) entries.old.items }
    ensures len { vec_len entries.new ≡ vec_len entries.old }
    ensures capacity { vec_capacity entries.new ≡ vec_capacity entries.old }
{
    for a in entries.iter_mut() {
        if a.number() == f {
            a.take_state(s);
        }
    }
}
