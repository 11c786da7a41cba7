//! The modules of a stack: their states, the filters that are attached, and the configuration.
ghost use Rattle.std.specs.Prelude.{◌≡◌, ◌∷◌, ◌++◌, [], IfOk, OnOk, option_copied, replicate, slice_set};
ghost use Rattle.ndis_base.specs.declared.ModuleState.TheVariants as state;
ghost use Rattle.stack_rules.specs.Net.{attached, modules_after, has_oid, first_oid};
ghost use Rattle.stack_rules.specs.Targets.{has_send, has_receive, has_status};
ghost use Rattle.stack_rules.specs.Cancels.{is_hold_filter};

use crate::filters::{attached, filters_after, handlers_of, hold_in};
use ndis_base::{ModuleId, ModuleState, OutOfMemory};
use stack_rules::Attached;
use std::alloc::Global;
use std::marker::Model;
use std::mem;

/// The miniport's state, each binding's, the filters that are attached, and the configuration: its
/// number, and its filters from top to bottom.
#[derive(Drop)]
pub struct PlainModules {
    alloc: Global,
    miniport: ModuleState,
    bindings: Vec<ModuleState>,
    filters: Vec<Attached>,
    config: u64,
    order: Vec<u64>,
}

impl Model for PlainModules {
    ghost use Rattle.stack_rules.specs.Net.{Modules};

    ghost Value = { Modules };

    ghost view = { λ m. record { miniport = m.miniport; bindings = m.bindings.items; filters = m.filters.items; config = m.config; order = m.order.items } };
}

fn unbound(alloc: Global, many: usize) -> Result<Vec<ModuleState>, OutOfMemory>
    ensures { IfOk result (λ states. states.items ≡ replicate many state.Unbound) }
{
    let mut states = Vec::new(alloc);
    for i in 0..many {
        states.push(ModuleState::Unbound)?;
    }
    Ok(states)
}

/// A halted miniport, so many unbound bindings, and no filters.
pub fn first_modules(alloc: Global, bindings: usize) -> Result<PlainModules, OutOfMemory>
    ensures { IfOk result (λ ms. ms ≡ record { miniport = state.Halted; bindings = replicate bindings state.Unbound; filters = []; config = 0; order = [] }) }
{
    Ok(PlainModules {
        alloc,
        miniport: ModuleState::Halted,
        bindings: unbound(alloc, bindings)?,
        filters: Vec::new(alloc),
        config: 0,
        order: Vec::new(alloc),
    })
}

impl PlainModules {
    /// The state of the miniport.
    pub fn miniport(&self) -> ModuleState
        ensures { result ≡ self.now.miniport }
    {
        self.miniport
    }

    /// The state of each binding.
    pub fn bindings(&self) -> &[ModuleState]
        ensures { result.now ≡ self.now.bindings }
    {
        self.bindings.as_slice()
    }

    /// The number of the configuration.
    pub fn config(&self) -> u64
        ensures { result ≡ self.now.config }
    {
        self.config
    }

    /// The filters of the configuration, from top to bottom.
    pub fn order(&self) -> &[u64]
        ensures { result.now ≡ self.now.order }
    {
        self.order.as_slice()
    }

    /// The attached filter of this number.
    pub fn attached(&self, f: u64) -> Option<&Attached>
        ensures { option_copied result ≡ attached f self.now.filters }
    {
        attached(f, self.filters.as_slice())
    }

    /// Whether the filter has the OID pair of handlers.
    pub fn has_oid(&self, f: u64) -> bool
        ensures { result ≡ has_oid self.now f }
    {
        handlers_of(self.attached(f)).oid
    }

    /// Whether the filter has the send pair of handlers.
    pub fn has_send(&self, f: u64) -> bool
        ensures { result ≡ has_send self.now f }
    {
        handlers_of(self.attached(f)).send
    }

    /// Whether the filter has the receive pair of handlers.
    pub fn has_receive(&self, f: u64) -> bool
        ensures { result ≡ has_receive self.now f }
    {
        handlers_of(self.attached(f)).receive
    }

    /// Whether the filter has the status handler.
    pub fn has_status(&self, f: u64) -> bool
        ensures { result ≡ has_status self.now f }
    {
        handlers_of(self.attached(f)).status
    }

    /// Whether the filter is a hold filter.
    pub fn is_hold_filter(&self, f: u64) -> bool
        ensures { result ≡ is_hold_filter self.now f }
    {
        hold_in(self.attached(f))
    }

    /// The first of some filters that takes requests, else the miniport.
    pub fn first_oid(&self, filters: &[u64]) -> ModuleId
        ensures { result ≡ first_oid self.now filters.now }
    {
        match filters {
            [] => ModuleId::Miniport,
            [f, others @ ..] => {
                if self.has_oid(*f) {
                    ModuleId::Filter(*f)
                } else {
                    self.first_oid(others)
                }
            }
        }
    }

    /// A module takes a state. After want of memory the modules are not to be used further.
    pub fn take_state(&mut self, m: ModuleId, s: ModuleState) -> Result<(), OutOfMemory>
        ensures { OnOk result (self.new ≡ modules_after self.old m s) }
    {
        match m {
            ModuleId::Miniport => self.miniport = s,
            ModuleId::Binding(b) => set_binding(&mut self.bindings, b, s),
            ModuleId::Filter(f) => {
                let filters = mem::replace(&mut self.filters, Vec::new(self.alloc));
                self.filters = filters_after(self.alloc, f, s, filters)?;
            }
        }
        Ok(())
    }

    /// Takes another configuration.
    pub fn take_config(&mut self, config: u64, order: Vec<u64>)
        ensures { self.new ≡ record self.old { config = config; order = order.items } }
    {
        self.config = config;
        self.order = order;
    }

    /// Attaches one more filter.
    pub fn take_filter(&mut self, a: Attached) -> Result<(), OutOfMemory>
        ensures { OnOk result (self.new ≡ record self.old { filters = self.old.filters ++ a ∷ [] }) }
    {
        self.filters.push(a)?;
        Ok(())
    }
}

fn set_binding(bindings: &mut Vec<ModuleState>, b: u32, s: ModuleState)
    ensures { bindings.new.items ≡ slice_set bindings.old.items b s }
{
    if (b as usize) < bindings.len() {
        bindings[b as usize] = s;
    }
}
