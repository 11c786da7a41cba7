//! What adapters with a ring have in common.
ghost use Rattle.std.specs.Prelude.{◌≡◌, ◌&&◌, ◌≤◌, false, None, Some, OnOk, IfErr};
ghost use Rattle.stack_rules.specs.Tests.{is_loop, is_virtual};
ghost use Rattle.driver_calls.specs.declared.faults.AttachFault.TheVariants.{Refused, Memory};
ghost use Rattle.driver_calls.specs.Miniports.{MayInitialize, Refuses, MaySend, IsQueued, MayReturn, IsReturned, MayTransmit, IsTransmitted, MayCancel, IsCancelled, MayAnswer, IsAnswered};
ghost use Rattle.ring_adapters.specs.Rings.{new_adapter};
ghost use Rattle.ring_adapters.specs.States.{core_state};

use crate::counts::{not_called, risen};
use crate::parts::Core;
use crate::wires::{cross, enqueue};
use buffer_pools::BufferList;
use driver_calls::{AttachFault, OidAnswer};
use driver_log::DriverLog;
use driver_tray::Tray;
use journal_types::PortSetup;
use kept_lists::KeptLists;
use ndis_base::{ListNo, ListStatus, MiniportKind, OutOfMemory};
use oid_answers::report_in;
use stack_rules::Request;
use std::alloc::Global;

fn loops(kind: MiniportKind, running: bool) -> bool
    ensures { result ≡ (is_loop kind && running) }
{
    matches!(kind, MiniportKind::Loop) && running
}

impl Core {
    /// Halted, and never called.
    pub(crate) fn make(alloc: Global, kind: MiniportKind, refuse_first: u64) -> Core
        requires { is_virtual kind ≡ false }
        ensures { core_state result ≡ new_adapter kind }
    {
        Core {
            kind,
            to_refuse: refuse_first,
            port: None,
            served: not_called(),
            refusals: 0,
            ring: KeptLists::empty(alloc),
            log: DriverLog::make(alloc),
        }
    }

    pub(crate) fn initialize(&mut self, alloc: Global, setup: PortSetup) -> Result<(), AttachFault>
        requires { MayInitialize (core_state self.old) }
        ensures initialized { OnOk result (core_state self.new ≡ record (core_state self.old) { port = Some setup }) }
        ensures refused { IfErr result (λ fault. fault ≡ Refused → Refuses (core_state self.old) (core_state self.new)) }
        ensures memory { IfErr result (λ fault. fault ≡ Memory → core_state self.new ≡ core_state self.old) }
    {
        if self.to_refuse > 0 {
            self.to_refuse -= 1;
            self.refusals = risen(self.refusals);
            return Err(AttachFault::Refused);
        }
        match KeptLists::make(alloc, setup.ring) {
            Ok(ring) => {
                self.ring = ring;
                self.port = Some(setup);
                Ok(())
            }
            Err(OutOfMemory) => Err(AttachFault::Memory),
        }
    }

    #[tactic(auto, using(crate::proofs::Calls::queues_of))]
    pub(crate) fn send(&mut self, list: BufferList, tray: &mut Tray)
        requires { MaySend (core_state self.old) list tray.old }
        ensures { IsQueued (core_state self.old) list tray.old (core_state self.new) tray.new }
    {
        self.served.send += 1;
        enqueue(&mut self.ring, list, tray);
    }

    pub(crate) fn returned(&mut self, list: BufferList, status: ListStatus, tray: &mut Tray)
        requires { MayReturn (core_state self.old) list tray.old }
        ensures { IsReturned (core_state self.old) list status tray.old (core_state self.new) tray.new }
    {
        self.served.returned += 1;
        tray.spend(list, status);
    }

    /// Counts a request, and answers it by the table of OIDs.
    pub(crate) fn oid(&mut self, request: &Request, tray: &Tray) -> OidAnswer
        requires { MayAnswer (core_state self.old) }
        ensures { IsAnswered (core_state self.old) request.now tray.now result (core_state self.new) }
    {
        self.served.oid += 1;
        report_in(tray, request)
    }

    pub(crate) fn cancel(&mut self, id: u32, tray: &mut Tray)
        requires { MayCancel (core_state self.old) tray.old }
        ensures { IsCancelled (core_state self.old) id tray.old (core_state self.new) tray.new }
    {
        self.ring.cancel(id, tray);
    }

    pub(crate) fn transmit(&mut self, running: bool, tray: &mut Tray) -> Option<ListNo>
        requires may { MayTransmit (core_state self.old) tray.old }
        requires room { 1 ≤ self.old.log.room }
        ensures { IsTransmitted (core_state self.old) running tray.old result (core_state self.new) tray.new }
    {
        let loops = loops(self.kind, running);
        match self.ring.take_first() {
            Some(list) => {
                let number = list.number();
                cross(&mut self.log, list, loops, tray);
                Some(number)
            }
            None => None,
        }
    }

    pub(crate) fn halt(&mut self)
        ensures { core_state self.new ≡ record (core_state self.old) { port = None } }
    {
        self.port = None;
    }
}
