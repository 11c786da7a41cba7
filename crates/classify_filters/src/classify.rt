//! What a classify filter does when it is called.
ghost use Rattle.std.specs.Prelude.{◌≡◌, ◌↔◌, Some, IfOk, IsOk, OnOk, OnErr, IfErr, IsTrue};
ghost use Rattle.ndis_base.specs.declared.FilterKind.TheVariants.{Classify};
ghost use Rattle.driver_calls.specs.declared.faults.AttachFault.TheVariants.{Refused};
ghost use Rattle.driver_calls.specs.Filters.{Refuses};
ghost use Rattle.frame_filters.specs.Filters.{new_filter};
ghost use Rattle.classify_filters.specs.Blocking.{is_blocking};
ghost use Rattle.classify_filters.specs.States.{state_of};

use crate::blocking::{block, is_blocking, lent};
use crate::class::FrameClass;
use crate::homes::pass_home;
use crate::parts::ClassifyFilter;
use buffer_pools::BufferList;
use driver_calls::{AttachFault, FilterDriver, LentFate};
use driver_tray::Tray;
use driver_views::Served;
use frame_filters::{not_called, risen};
use journal_types::Setup;
use ndis_base::{
    FilterKind, ListStatus, OidNo, OidStatus, OidValue, OutOfMemory, StatusName, StatusNo,
};
use stack_rules::Request;
use std::alloc::Global;

/// The EtherType of LLDP frames (IEEE 802.1AB).
const LLDP: u16 = 0x88CC;

impl<C: FrameClass + Send> ClassifyFilter<C> {
    /// A filter on the shelf that was never called. It takes no memory.
    pub fn make(_alloc: Global, class: C) -> Result<ClassifyFilter<C>, OutOfMemory>
        requires { C.ethertype class ≡ 35020 }
        ensures { IfOk result (λ f. ⟦<ClassifyFilter<C> as FilterDriver>⟧.state f ≡ new_filter Classify) }
    {
        Ok(ClassifyFilter {
            class,
            setup: None,
            served: not_called(),
            refusals: 0,
        })
    }
}

impl<C: FrameClass + Send> FilterDriver for ClassifyFilter<C> {
    ghost state = { λ f. state_of f.setup f.served f.refusals };

    ghost room = { λ _. 1 };

    fn kind(&self) -> FilterKind {
        FilterKind::Classify
    }

    fn served(&self) -> Served {
        self.served
    }

    fn refusals(&self) -> u64 {
        self.refusals
    }

    fn held(&self) -> usize {
        0
    }

    fn make_room(&mut self, _max: usize) -> Result<(), OutOfMemory> {
        Ok(())
    }

    /// It refuses exactly the programs that do anything else than drop LLDP frames.
    fn attach(&mut self, _alloc: Global, setup: Setup) -> Result<(), AttachFault>
        ensures attached { OnOk result (state_of self.new.setup self.new.served self.new.refusals ≡ record (state_of self.old.setup self.old.served self.old.refusals) { setup = Some setup }) }
        ensures fits { IsOk result ↔ IsTrue (is_blocking 35020 setup) }
        ensures refused { IfErr result (λ fault. fault ≡ Refused) }
        ensures refuses { OnErr result (Refuses (state_of self.old.setup self.old.served self.old.refusals) (state_of self.new.setup self.new.served self.new.refusals)) }
    {
        if is_blocking(LLDP, &setup) {
            self.setup = Some(setup);
            Ok(())
        } else {
            self.refusals = risen(self.refusals);
            Err(AttachFault::Refused)
        }
    }

    fn send(&mut self, list: BufferList, tray: &mut Tray) {
        self.served.send += 1;
        block(&self.class, list, tray);
    }

    fn send_complete(&mut self, list: BufferList, status: ListStatus, tray: &mut Tray) {
        self.served.send_complete += 1;
        pass_home(list, status, tray);
    }

    fn receive(&mut self, list: BufferList, tray: &mut Tray) {
        self.served.receive += 1;
        block(&self.class, list, tray);
    }

    /// It leaves a lent list or drops it, and never copies one.
    fn receive_lent(&mut self, list: &BufferList, tray: &mut Tray) -> LentFate {
        self.served.receive_lent += 1;
        lent(&self.class, list)
    }

    fn returned(&mut self, list: BufferList, status: ListStatus, tray: &mut Tray) {
        self.served.returned += 1;
        pass_home(list, status, tray);
    }

    fn status(&mut self, number: StatusNo, name: StatusName, tray: &mut Tray) {
        self.served.status += 1;
        tray.indicate_status(number, name);
    }

    fn oid(&mut self, request: &Request, tray: &mut Tray) {
        self.served.oid += 1;
        tray.forward_clone(request);
    }

    fn oid_complete(
        &mut self,
        request: OidNo,
        status: OidStatus,
        value: &OidValue,
        tray: &mut Tray,
    ) {
        self.served.oid_complete += 1;
        tray.complete(request, status, value);
    }

    fn cancel(&mut self, _id: u32, _tray: &mut Tray) {}

    fn tick(&mut self, _tray: &mut Tray) {}

    fn pause(&mut self) {}

    fn restart(&mut self) {}

    fn detach(&mut self) {
        self.setup = None;
    }
}
