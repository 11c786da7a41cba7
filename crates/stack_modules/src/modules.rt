//! The modules of a stack: their states, the filters that are attached, and the configuration.
ghost use Rattle.std.specs.Prelude.{◌≡◌, ◌≤◌, ◌∷◌, ◌++◌, [], IfOk, option_copied, option_map, length, replicate, slice_set};
ghost use Rattle.std.specs.Vec.{vec_capacity};
ghost use Rattle.ndis_base.specs.declared.ModuleState.TheVariants as state;
ghost use Rattle.stack_rules.specs.Net.{attached, modules_after, has_oid, first_oid};
ghost use Rattle.stack_rules.specs.Targets.{has_send, has_receive, has_status};
ghost use Rattle.stack_rules.specs.Cancels.{is_hold_filter};
ghost use Rattle.stack_rules.specs.Places.{pool_in, state_in};
ghost use Rattle.stack_modules.specs.Entries.{new_entry};

use crate::filters::{
    FilterEntry, attached, handlers_of, hold_in, kind_in, new_entry, pool_in, state_in, take_state,
};
use journal_types::Setup;
use ndis_base::{FilterKind, ModuleId, ModuleState, OutOfMemory};
use std::alloc::Global;
use std::marker::Model;

/// The filters that an order has room for.
const ORDER: usize = 16;

/// The filters that may be attached.
const ATTACHED: usize = 17;

/// The miniport's state, each binding's, the filters that are attached, and the configuration: its
/// number, and its filters from top to bottom.
#[derive(Drop)]
pub struct StackModules {
    miniport: ModuleState,
    bindings: Vec<ModuleState>,
    filters: Vec<FilterEntry>,
    config: u64,
    order: Vec<u64>,
}

impl Model for StackModules {
    ghost use Rattle.stack_rules.specs.Net.{Modules};

    ghost Value = { Modules };

    ghost use Rattle.stack_modules.specs.Inside.{modules_view, IsRoomy};

    ghost view = { modules_view };

    ghost invariant = { IsRoomy };
}

impl StackModules {
    /// A halted miniport, so many unbound bindings, and no filters.
    pub fn make(alloc: Global, bindings: usize) -> Result<StackModules, OutOfMemory>
        ensures { IfOk result (λ ms. ms ≡ record { miniport = state.Halted; bindings = replicate bindings state.Unbound; filters = []; config = 0; order = [] }) }
    {
        Ok(StackModules {
            miniport: ModuleState::Halted,
            bindings: vec![in alloc; ModuleState::Unbound; bindings]?,
            filters: Vec::with_capacity(alloc, ATTACHED)?,
            config: 0,
            order: Vec::with_capacity(alloc, ORDER)?,
        })
    }

    /// The state of the miniport.
    pub fn miniport(&self) -> ModuleState
        ensures { result ≡ self.now.miniport }
    {
        self.miniport
    }

    /// The state of each binding.
    pub fn bindings(&self) -> &[ModuleState]
        ensures { result.now ≡ self.now.bindings }
    {
        self.bindings.as_slice()
    }

    /// The number of the configuration.
    pub fn config(&self) -> u64
        ensures { result ≡ self.now.config }
    {
        self.config
    }

    /// The filters of the configuration, from top to bottom.
    pub fn order(&self) -> &[u64]
        ensures { result.now ≡ self.now.order }
    {
        self.order.as_slice()
    }

    /// The attached filter of this number.
    pub fn attached(&self, f: u64) -> Option<&FilterEntry>
        ensures { option_copied result ≡ attached f self.now.filters }
    {
        attached(f, self.filters.as_slice())
    }

    /// Whether the filter has the OID pair of handlers.
    pub fn has_oid(&self, f: u64) -> bool
        ensures { result ≡ has_oid self.now f }
    {
        handlers_of(self.attached(f)).oid
    }

    /// Whether the filter has the send pair of handlers.
    pub fn has_send(&self, f: u64) -> bool
        ensures { result ≡ has_send self.now f }
    {
        handlers_of(self.attached(f)).send
    }

    /// Whether the filter has the receive pair of handlers.
    pub fn has_receive(&self, f: u64) -> bool
        ensures { result ≡ has_receive self.now f }
    {
        handlers_of(self.attached(f)).receive
    }

    /// Whether the filter has the status handler.
    pub fn has_status(&self, f: u64) -> bool
        ensures { result ≡ has_status self.now f }
    {
        handlers_of(self.attached(f)).status
    }

    /// Whether the filter is a hold filter.
    pub fn is_hold_filter(&self, f: u64) -> bool
        ensures { result ≡ is_hold_filter self.now f }
    {
        hold_in(self.attached(f))
    }

    /// What kind of filter it is; None where it isn't attached.
    pub fn kind_of(&self, f: u64) -> Option<FilterKind>
        ensures { result ≡ option_map (λ a. a.kind) (attached f self.now.filters) }
    {
        kind_in(self.attached(f))
    }

    /// How many lists the filter's pool has; none where it isn't attached.
    pub fn pool_of(&self, f: u64) -> usize
        ensures { result ≡ pool_in (attached f self.now.filters) }
    {
        pool_in(self.attached(f))
    }

    /// The filter's state; Detached where it isn't attached.
    pub fn state_of(&self, f: u64) -> ModuleState
        ensures { result ≡ state_in (attached f self.now.filters) }
    {
        state_in(self.attached(f))
    }

    /// The first of some filters that takes requests, else the miniport.
    pub fn first_oid(&self, filters: &[u64]) -> ModuleId
        ensures { result ≡ first_oid self.now filters.now }
    {
        match filters {
            [] => ModuleId::Miniport,
            [f, others @ ..] => {
                if self.has_oid(*f) {
                    ModuleId::Filter(*f)
                } else {
                    self.first_oid(others)
                }
            }
        }
    }

    /// A module takes a state.
    pub fn take_state(&mut self, m: ModuleId, s: ModuleState)
        ensures { self.new ≡ modules_after self.old m s }
    {
        match m {
            ModuleId::Miniport => self.miniport = s,
            ModuleId::Binding(b) => set_binding(&mut self.bindings, b, s),
            ModuleId::Filter(f) => take_state(f, s, &mut self.filters),
        }
    }

    /// Takes another configuration.
    pub fn take_config(&mut self, config: u64, filters: &[u64])
        requires { length filters.now ≤ 16 }
        ensures { self.new ≡ record self.old { config = config; order = filters.now } }
    {
        self.config = config;
        set_order(&mut self.order, filters);
    }

    /// Attaches one more filter.
    pub fn attach(&mut self, f: u64, kind: FilterKind, setup: &Setup)
        requires { length self.old.filters ≤ 16 }
        ensures { self.new ≡ record self.old { filters = self.old.filters ++ new_entry f kind setup.now ∷ [] } }
    {
        self.filters.push_reserved(new_entry(f, kind, setup));
    }
}

fn set_binding(bindings: &mut Vec<ModuleState>, b: u32, s: ModuleState)
    ensures { bindings.new.items ≡ slice_set bindings.old.items b s }
{
    if (b as usize) < bindings.len() {
        bindings[b as usize] = s;
    }
}

fn set_order(order: &mut Vec<u64>, filters: &[u64])
    requires within { length filters.now ≤ 16 }
    requires room { 16 ≤ vec_capacity order.old }
    ensures order { order.new.items ≡ filters.now }
    ensures capacity { vec_capacity order.new ≡ vec_capacity order.old }
{
    order.clear();
    for f in filters {
        order.push_reserved(*f);
    }
}
