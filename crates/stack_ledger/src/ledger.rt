//! The ledger, and the rows that it notes.
ghost use Rattle.std.specs.Prelude.{◌≡◌, ℕ, ◌+◌, ◌-◌, ◌≤◌, ◌<◌, ◌^◌, IfOk, OnOk, length, max};
ghost use Rattle.journal_types.specs.declared.Row.TheVariants as row;
ghost use Rattle.journal_types.specs.declared.PhaseOf.TheVariants as of;
ghost use Rattle.stack_rules.specs.Net.{start, with_filter, port_after};
ghost use Rattle.stack_ledger.specs.Bare.{noted, asked, with_net, with_issued, with_wired, with_status, with_out, with_done, filter_number};

use crate::numbers::{NextNumbers, filter_after, first_numbers, number_past};
use crate::port::{LedgerPort, first_port};
use crate::requests;
use journal_types::{BindingSetups, OutWay, Setup, StackHead, UpperLinks};
use ndis_base::{
    ConfigNo, FilterKind, ModuleId, ModuleState, OidKind, OidNo, OidStatus, OidValue, OutOfMemory,
    Phase, StatusNo,
};
use stack_modules::StackModules;
use stack_rules::Request;
use std::alloc::Global;
use std::marker::Model;

/// The state of a stack but its lists, statuses, answers and messages.
#[derive(Drop)]
pub struct StackLedger {
    pub(crate) head: StackHead,
    pub(crate) phase: Phase,
    pub(crate) modules: StackModules,
    pub(crate) requests: Vec<Request>,
    spare: usize,
    pub(crate) port: LedgerPort,
    pub(crate) next: NextNumbers,
}

impl Model for StackLedger {
    ghost use Rattle.stack_ledger.specs.Bare.{LedgerView};

    ghost Value = { LedgerView };

    ghost use Rattle.stack_ledger.specs.Inside.{ledger_view, IsLedger};

    ghost view = { ledger_view };

    ghost invariant = { IsLedger };
}

fn copy_of_head(alloc: Global, head: &StackHead) -> Result<StackHead, OutOfMemory>
    ensures { IfOk result (λ h. h ≡ head.now) }
{
    Ok(StackHead {
        stack: head.stack,
        kind: head.kind,
        port: head.port,
        link: head.link,
        bindings: BindingSetups::of(Vec::from_slice(alloc, head.bindings.items())?),
        uppers: UpperLinks::of(Vec::from_slice(alloc, head.uppers.items())?),
    })
}

impl StackLedger {
    /// The state before the first turn of a stack of this head.
    pub fn make(alloc: Global, head: &StackHead) -> Result<StackLedger, OutOfMemory>
        ensures { IfOk result (λ l. l ≡ record { net = start head.now; spare = 0 }) }
    {
        let head = copy_of_head(alloc, head)?;
        let bindings = head.bindings.items().len();
        Ok(StackLedger {
            head,
            phase: Phase::Halted,
            modules: StackModules::make(alloc, bindings)?,
            requests: Vec::new(alloc),
            spare: 0,
            port: first_port(alloc, bindings)?,
            next: first_numbers(),
        })
    }

    /// Makes room for so many further requests.
    pub fn make_room(&mut self, requests: usize) -> Result<(), OutOfMemory>
        ensures same { self.new ≡ record self.old { spare = self.new.spare } }
        ensures room { OnOk result (requests ≤ self.new.spare) }
        ensures kept { self.old.spare ≤ self.new.spare }
    {
        if self.spare < requests {
            self.requests.reserve(requests)?;
            self.spare = requests;
        }
        Ok(())
    }

    /// A module issued a list of so many frames.
    pub fn issue(&mut self, owner: ModuleId, frames: usize)
        requires list { self.old.net.next.list + 1 < 2 ^ 64 }
        requires received { self.old.net.port.received + frames < 2 ^ 64 }
        ensures { self.new ≡ with_net self.old (with_issued owner frames self.old.net) }
    {
        self.port.count_issued(owner, frames);
        self.next.list += 1;
    }

    /// So many frames went onto the wire.
    pub fn wire(&mut self, frames: usize)
        requires { self.old.net.port.sent + frames < 2 ^ 64 }
        ensures { self.new ≡ with_net self.old (with_wired frames self.old.net) }
    {
        self.port.count_sent(frames);
    }

    /// A module took a state.
    pub fn enter(&mut self, id: ModuleId, state: ModuleState)
        requires { filter_number id + 1 < 2 ^ 64 }
        ensures { self.new ≡ noted self.old (row.Phase (of.Module id state)) }
    {
        self.reset_for(id);
        self.modules.take_state(id, state);
        self.next.filter = filter_after(id, state, self.next.filter);
    }

    fn reset_for(&mut self, id: ModuleId)
        ensures { self.new ≡ with_net self.old (record self.old.net { port = port_after self.old.net id }) }
    {
        if matches!(id, ModuleId::Miniport)
            && matches!(self.modules.miniport(), ModuleState::Halted)
        {
            self.port.reset();
        }
    }

    /// The stack came into a phase.
    pub fn enter_phase(&mut self, phase: Phase)
        ensures { self.new ≡ noted self.old (row.Phase (of.Stack phase)) }
    {
        self.phase = phase;
    }

    /// The stack has another configuration.
    pub fn configure(&mut self, config: ConfigNo, filters: &[u64])
        requires { length filters.now ≤ 16 }
        ensures { self.new ≡ noted self.old (row.Config config filters.now) }
    {
        self.modules.take_config(config.0, filters);
    }

    /// A filter that has no state yet is attached.
    pub fn attach(&mut self, filter: u64, kind: FilterKind, setup: &Setup)
        requires { length self.old.net.modules.filters ≤ 16 }
        ensures { self.new ≡ with_net self.old (with_filter filter kind setup.now self.old.net) }
    {
        self.modules.attach(filter, kind, setup);
    }

    /// A status is on its way.
    pub fn status(&mut self, number: StatusNo)
        requires { self.old.net.next.status + 1 < 2 ^ 64 }
        ensures { self.new ≡ with_net self.old (with_status number.0 self.old.net) }
    {
        self.next.status = number_past(self.next.status, number.0);
    }

    /// A message of so many frames left the stack.
    pub fn cross_out(&mut self, way: OutWay, frames: usize)
        requires sent { self.old.net.port.sent + frames < 2 ^ 64 }
        requires message { self.old.net.next.message + 1 < 2 ^ 64 }
        ensures { self.new ≡ with_net self.old (with_out way frames self.old.net) }
    {
        self.port.count_out(way, frames);
        self.next.message += 1;
    }

    /// A request was issued. It takes room for one.
    pub fn oid_issue(
        &mut self,
        request: OidNo,
        parent: Option<OidNo>,
        binding: u32,
        kind: OidKind,
        code: u32,
        value: &OidValue,
    )
        requires room { 1 ≤ self.old.spare }
        requires number { self.old.net.next.request + 1 < 2 ^ 64 }
        ensures { self.new ≡ asked self.old (row.OidIssue request parent binding kind code value.now) }
    {
        let at = requests::place_of_request(&self.modules, self.requests.as_slice(), parent);
        self.requests.push_reserved(Request {
            request,
            parent,
            binding,
            kind,
            code,
            value: value.copy(),
            at,
        });
        self.spare -= 1;
        self.next.request += 1;
    }

    /// A request was given to a module.
    pub fn oid_give(&mut self, request: OidNo, id: ModuleId)
        ensures { self.new ≡ noted self.old (row.OidGive request id) }
    {
        requests::give(request.0, id, &mut self.requests);
    }

    /// A request is done.
    pub fn oid_done(&mut self, request: OidNo, status: OidStatus)
        ensures { self.new ≡ with_net self.old (with_done request status self.old.net) }
    {
        if let Some(r) = requests::request_of(request.0, self.requests.as_slice()) {
            self.port.take_done(r, status);
        }
        requests::forget(request.0, &mut self.requests);
    }
}
