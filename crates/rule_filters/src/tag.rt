//! A filter that tags what is sent and untags what is received.
ghost use Rattle.std.specs.Prelude.{◌≡◌, ◌↔◌, Some, IfOk, IfErr, OnOk, OnErr, IsOk, IsTrue};
ghost use Rattle.ndis_base.specs.declared.FilterKind.TheVariants.{Tag};
ghost use Rattle.driver_calls.specs.declared.faults.AttachFault.TheVariants.{Refused};
ghost use Rattle.driver_calls.specs.Filters.{Refuses};
ghost use Rattle.frame_filters.specs.Filters.{new_filter};
ghost use Rattle.rule_filters.specs.States.{programmed_state, room_of};
ghost use Rattle.rule_filters.specs.Tagging.{is_tagging};

use crate::parts::Programmed;
use crate::tagging::is_tagging;
use buffer_pools::BufferList;
use driver_calls::{AttachFault, FilterDriver, LentFate};
use driver_tray::Tray;
use driver_views::Served;
use journal_types::Setup;
use ndis_base::{
    FilterKind, ListStatus, OidNo, OidStatus, OidValue, OutOfMemory, StatusName, StatusNo,
};
use stack_rules::Request;
use std::alloc::Global;

/// A tag filter puts a VLAN tag on each frame that is sent, and takes it off the received frames of that VLAN. It
/// attaches with the programs that do just this, and refuses any others.
#[derive(Drop)]
pub struct TagFilter {
    core: Programmed,
    ghost is_tag: { core.kind ≡ Tag },
}

impl TagFilter {
    /// A filter on the shelf that was never called. It takes no memory.
    pub fn make(alloc: Global) -> Result<TagFilter, OutOfMemory>
        ensures { IfOk result (λ f. ⟦<TagFilter as FilterDriver>⟧.state f ≡ new_filter Tag) }
    {
        Ok(TagFilter {
            core: Programmed::make(alloc, FilterKind::Tag),
        })
    }
}

impl FilterDriver for TagFilter {
    ghost state = { λ f. programmed_state f.core };

    ghost room = { λ f. room_of f.core };

    fn kind(&self) -> FilterKind {
        self.core.kind
    }

    fn served(&self) -> Served {
        self.core.served
    }

    fn refusals(&self) -> u64 {
        self.core.refusals
    }

    fn held(&self) -> usize {
        self.core.held()
    }

    fn make_room(&mut self, _max: usize) -> Result<(), OutOfMemory> {
        self.core.make_room()
    }

    /// It refuses exactly the programs that do anything else than tag and untag.
    fn attach(&mut self, _alloc: Global, setup: Setup) -> Result<(), AttachFault>
        ensures attached { OnOk result (programmed_state self.new.core ≡ record (programmed_state self.old.core) { setup = Some setup }) }
        ensures fits { IsOk result ↔ IsTrue (is_tagging setup) }
        ensures refused { IfErr result (λ fault. fault ≡ Refused) }
        ensures refuses { OnErr result (Refuses (programmed_state self.old.core) (programmed_state self.new.core)) }
    {
        if is_tagging(&setup) {
            self.core.attach(setup);
            Ok(())
        } else {
            self.core.refuse();
            Err(AttachFault::Refused)
        }
    }

    fn send(&mut self, list: BufferList, tray: &mut Tray) {
        self.core.send(list, tray);
    }

    fn send_complete(&mut self, list: BufferList, status: ListStatus, tray: &mut Tray) {
        self.core.send_complete(list, status, tray);
    }

    fn receive(&mut self, list: BufferList, tray: &mut Tray) {
        self.core.receive(list, tray);
    }

    fn receive_lent(&mut self, list: &BufferList, tray: &mut Tray) -> LentFate {
        self.core.receive_lent(list, tray)
    }

    fn returned(&mut self, list: BufferList, status: ListStatus, tray: &mut Tray) {
        self.core.returned(list, status, tray);
    }

    fn status(&mut self, number: StatusNo, name: StatusName, tray: &mut Tray) {
        self.core.status(number, name, tray);
    }

    fn oid(&mut self, request: &Request, tray: &mut Tray) {
        self.core.oid(request, tray);
    }

    fn oid_complete(
        &mut self,
        request: OidNo,
        status: OidStatus,
        value: &OidValue,
        tray: &mut Tray,
    ) {
        self.core.oid_complete(request, status, value, tray);
    }

    fn cancel(&mut self, _id: u32, _tray: &mut Tray) {}

    fn tick(&mut self, _tray: &mut Tray) {}

    fn pause(&mut self) {}

    fn restart(&mut self) {}

    fn detach(&mut self) {
        self.core.detach();
    }
}
