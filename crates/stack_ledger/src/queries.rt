//! What a ledger is asked.
ghost use Rattle.std.specs.Prelude.{◌≡◌, length, option_copied};
ghost use Rattle.ndis_base.specs.declared.ModuleId.TheVariants.{Binding};
ghost use Rattle.stack_rules.specs.Net.{request_of};
ghost use Rattle.stack_rules.specs.Outcome.{list_no, oid_no, status_no, cross_no, config_no};
ghost use Rattle.stack_rules.specs.Cancels.{is_hold_filter};
ghost use Rattle.stack_rules.specs.Pauses.{floors, first_unpaused, running_floors};
ghost use Rattle.stack_rules.specs.Places.{position, pool_of, state_of};
ghost use Rattle.stack_rules.specs.Targets.{next_back, next_done, next_down, next_status, next_up};

use crate::floors::{paused_from_top, running_from_below};
use crate::ledger::StackLedger;
use crate::requests;
use journal_types::{StackHead, Target};
use ndis_base::{ConfigNo, CrossNo, ListNo, ModuleId, ModuleState, OidNo, Phase, StatusNo};
use stack_modules::{
    StackModules, next_back, next_done, next_down, next_status, next_up, position,
};
use stack_rules::Request;

impl StackLedger {
    /// The fixed part of the stack.
    pub fn head(&self) -> &StackHead
        ensures { result.now ≡ self.now.net.head }
    {
        &self.head
    }

    /// The phase of the stack.
    pub fn phase(&self) -> Phase
        ensures { result ≡ self.now.net.phase }
    {
        self.phase
    }

    /// The modules, with the handlers and the kinds of the filters that are attached.
    pub fn modules(&self) -> &StackModules
        ensures { result.now ≡ self.now.net.modules }
    {
        &self.modules
    }

    /// The number of the configuration, 0 before the first.
    pub fn config(&self) -> ConfigNo
        ensures { result ≡ config_no self.now.net.modules.config }
    {
        ConfigNo(self.modules.config())
    }

    /// The filters of the configuration, from top to bottom.
    pub fn order(&self) -> &[u64]
        ensures { result.now ≡ self.now.net.modules.order }
    {
        self.modules.order()
    }

    /// The number of the list that is issued next.
    pub fn next_list(&self) -> ListNo
        ensures { result ≡ list_no self.now.net.next.list }
    {
        ListNo(self.next.list)
    }

    /// The number of the request that is issued next.
    pub fn next_request(&self) -> OidNo
        ensures { result ≡ oid_no self.now.net.next.request }
    {
        OidNo(self.next.request)
    }

    /// The number of the status that is indicated next.
    pub fn next_status_number(&self) -> StatusNo
        ensures { result ≡ status_no self.now.net.next.status }
    {
        StatusNo(self.next.status)
    }

    /// The number of the message that leaves next.
    pub fn next_message(&self) -> CrossNo
        ensures { result ≡ cross_no self.now.net.next.message }
    {
        CrossNo(self.next.message)
    }

    /// The number of the filter that is attached next.
    pub fn next_filter(&self) -> u64
        ensures { result ≡ self.now.net.next.filter }
    {
        self.next.filter
    }

    /// How many frames the miniport sent.
    pub fn sent(&self) -> u64
        ensures { result ≡ self.now.net.port.sent }
    {
        self.port.sent()
    }

    /// How many frames the miniport indicated.
    pub fn received(&self) -> u64
        ensures { result ≡ self.now.net.port.received }
    {
        self.port.received()
    }

    /// The packet filter of each binding that the miniport answers with.
    pub fn answers_by(&self) -> &[u32]
        ensures { result.now ≡ self.now.net.port.answers_by }
    {
        self.port.answers_by()
    }

    /// The packet filter of each binding by which lists are delivered to it.
    pub fn delivers_by(&self) -> &[u32]
        ensures { result.now ≡ self.now.net.port.delivers_by }
    {
        self.port.delivers_by()
    }

    fn state_of_binding(&self, b: u32) -> ModuleState
        ensures { result ≡ state_of self.now.net (Binding b) }
    {
        match self.modules.bindings().get(b as usize) {
            Some(state) => *state,
            None => ModuleState::Unbound,
        }
    }

    /// The state of a module: Unbound for a binding that isn't there, and Detached for a filter.
    pub fn state_of(&self, id: ModuleId) -> ModuleState
        ensures { result ≡ state_of self.now.net id }
    {
        match id {
            ModuleId::Miniport => self.modules.miniport(),
            ModuleId::Binding(b) => self.state_of_binding(b),
            ModuleId::Filter(f) => self.modules.state_of(f),
        }
    }

    fn pool_of_binding(&self, b: u32) -> usize
        ensures { result ≡ pool_of self.now.net (Binding b) }
    {
        match self.head.bindings.items().get(b as usize) {
            Some(setup) => setup.1,
            None => 0,
        }
    }

    /// How many lists a module may own at a time; 0 for what isn't there.
    pub fn pool_of(&self, id: ModuleId) -> usize
        ensures { result ≡ pool_of self.now.net id }
    {
        match id {
            ModuleId::Miniport => self.head.port.pool,
            ModuleId::Binding(b) => self.pool_of_binding(b),
            ModuleId::Filter(f) => self.modules.pool_of(f),
        }
    }

    /// Whether a filter is a hold filter.
    pub fn is_hold_filter(&self, f: u64) -> bool
        ensures { result ≡ is_hold_filter self.now.net.modules f }
    {
        self.modules.is_hold_filter(f)
    }

    /// The position of a module, from the top: the bindings at 0, and below the filters the miniport.
    pub fn position(&self, id: ModuleId) -> usize
        ensures { result ≡ position self.now.net.modules.order id }
    {
        position(self.modules.order(), id)
    }

    /// Where a list that is sent down from a position goes next.
    pub fn next_down(&self, from: usize) -> Target
        ensures { result ≡ next_down self.now.net.modules from }
    {
        next_down(&self.modules, from)
    }

    /// Where a list that is indicated up from a position goes next.
    pub fn next_up(&self, from: usize) -> Target
        ensures { result ≡ next_up self.now.net.modules from }
    {
        next_up(&self.modules, from)
    }

    /// Where a list that was sent and is done goes next, on the way to its owner.
    pub fn next_done(&self, from: usize, owner: ModuleId) -> Target
        ensures { result ≡ next_done self.now.net.modules from owner }
    {
        next_done(&self.modules, from, owner)
    }

    /// Where a list that was indicated and is returned goes next, on the way to its owner.
    pub fn next_back(&self, from: usize, owner: ModuleId) -> Target
        ensures { result ≡ next_back self.now.net.modules from owner }
    {
        next_back(&self.modules, from, owner)
    }

    /// Where a status that is indicated up from a position goes next.
    pub fn next_status(&self, from: usize) -> Target
        ensures { result ≡ next_status self.now.net.modules from }
    {
        next_status(&self.modules, from)
    }

    /// How many positions there are.
    pub fn floors_count(&self) -> usize
        ensures { result ≡ length (floors self.now.net.modules) }
    {
        self.modules.order().len() + 2
    }

    /// How many positions from the top are Paused.
    pub fn first_unpaused(&self) -> usize
        ensures { result ≡ first_unpaused self.now.net }
    {
        paused_from_top(&self.modules)
    }

    /// How many positions from the bottom run.
    pub fn running_floors(&self) -> usize
        ensures { result ≡ running_floors self.now.net }
    {
        running_from_below(&self.modules)
    }

    /// The requests that aren't done, in order of issue.
    pub fn requests(&self) -> &[Request]
        ensures { result.now ≡ self.now.net.requests }
    {
        self.requests.as_slice()
    }

    /// The request of a number.
    pub fn request_of(&self, n: u64) -> Option<&Request>
        ensures { option_copied result ≡ request_of n self.now.net.requests }
    {
        requests::request_of(n, self.requests.as_slice())
    }
}
