//! The rows of states, and what a tray is asked of the modules.
ghost use Rattle.std.specs.Prelude.{◌≡◌, ◌+◌, ◌≤◌, ◌<◌, ◌^◌, length};
ghost use Rattle.journal_types.specs.declared.Row.TheVariants as row;
ghost use Rattle.stack_rules.specs.Outcome.{config_no, list_no};
ghost use Rattle.stack_rules.specs.Pauses.{first_unpaused, floors, running_floors};
ghost use Rattle.stack_rules.specs.Places.{state_of, pool_of};
ghost use Rattle.stack_ledger.specs.Bare.{noted};
ghost use Rattle.driver_tray.specs.Tray.{written, phase_filter};

use crate::tray::Tray;
use flat_journal::FlatRow;
use journal_types::{PhaseOf, StackHead};
use ndis_base::{ConfigNo, ListNo, ModuleId, ModuleState, Phase};
use stack_ledger::StackLedger;
use stack_modules::StackModules;
use stack_rules::Request;

fn enter(ledger: &mut StackLedger, of: PhaseOf)
    requires { phase_filter of + 1 < 2 ^ 64 }
    ensures { ledger.new ≡ noted ledger.old (row.Phase of) }
{
    match of {
        PhaseOf::Module(id, state) => ledger.enter(id, state),
        PhaseOf::Stack(phase) => ledger.enter_phase(phase),
    }
}

impl Tray {
    /// What the stack is made of: its number, its miniport and its bindings.
    pub fn head(&self) -> &StackHead
        ensures { result.now ≡ self.now.net.head }
    {
        self.ledger.head()
    }

    /// The packet filter by which each binding is delivered to.
    pub fn delivers_by(&self) -> &[u32]
        ensures { result.now ≡ self.now.net.port.delivers_by }
    {
        self.ledger.delivers_by()
    }

    /// The packet filter of each binding that the miniport answers with.
    pub fn answers_by(&self) -> &[u32]
        ensures { result.now ≡ self.now.net.port.answers_by }
    {
        self.ledger.answers_by()
    }

    /// The requests that aren't done.
    pub fn requests(&self) -> &[Request]
        ensures { result.now ≡ self.now.net.requests }
    {
        self.ledger.requests()
    }

    /// How many positions the stack has: the bindings, each filter, and the miniport.
    pub fn floors_count(&self) -> usize
        ensures { result ≡ length (floors self.now.net.modules) }
    {
        self.ledger.floors_count()
    }

    /// Writes that a module or the stack took a state.
    pub fn write_phase(&mut self, of: PhaseOf)
        requires filter { phase_filter of + 1 < 2 ^ 64 }
        requires room { 1 ≤ self.old.room.rows }
        ensures { self.new ≡ written self.old (row.Phase of) }
    {
        self.journal.write_row(FlatRow::Phase { of });
        enter(&mut self.ledger, of);
    }

    /// The phase of the stack.
    pub fn phase(&self) -> Phase
        ensures { result ≡ self.now.net.phase }
    {
        self.ledger.phase()
    }

    /// The modules, with the handlers and the kinds of the filters that are attached.
    pub fn modules(&self) -> &StackModules
        ensures { result.now ≡ self.now.net.modules }
    {
        self.ledger.modules()
    }

    /// The filters of the configuration, from top to bottom.
    pub fn order(&self) -> &[u64]
        ensures { result.now ≡ self.now.net.modules.order }
    {
        self.ledger.order()
    }

    /// The number of the configuration, 0 before the first.
    pub fn config(&self) -> ConfigNo
        ensures { result ≡ config_no self.now.net.modules.config }
    {
        self.ledger.config()
    }

    /// The number of the list that is issued next.
    pub fn next_list(&self) -> ListNo
        ensures { result ≡ list_no self.now.net.next.list }
    {
        self.ledger.next_list()
    }

    /// How many frames the miniport sent.
    pub fn sent(&self) -> u64
        ensures { result ≡ self.now.net.port.sent }
    {
        self.ledger.sent()
    }

    /// How many frames the miniport indicated.
    pub fn received(&self) -> u64
        ensures { result ≡ self.now.net.port.received }
    {
        self.ledger.received()
    }

    /// The number of the filter that is attached next.
    pub fn next_filter(&self) -> u64
        ensures { result ≡ self.now.net.next.filter }
    {
        self.ledger.next_filter()
    }

    /// The state of a module: Unbound for a binding that isn't there, and Detached for a filter.
    pub fn state_of(&self, id: ModuleId) -> ModuleState
        ensures { result ≡ state_of self.now.net id }
    {
        self.ledger.state_of(id)
    }

    /// How many lists a module may own at a time; 0 for what isn't there.
    pub fn pool_of(&self, id: ModuleId) -> usize
        ensures { result ≡ pool_of self.now.net id }
    {
        self.ledger.pool_of(id)
    }

    /// How many positions from the top are Paused.
    pub fn first_unpaused(&self) -> usize
        ensures { result ≡ first_unpaused self.now.net }
    {
        self.ledger.first_unpaused()
    }

    /// How many positions from the bottom run.
    pub fn running_floors(&self) -> usize
        ensures { result ≡ running_floors self.now.net }
    {
        self.ledger.running_floors()
    }
}
