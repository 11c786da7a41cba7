//! A filter with any programs.
ghost use Rattle.std.specs.Prelude.{◌≡◌, Some, IfOk, OnOk, IsOk};
ghost use Rattle.ndis_base.specs.declared.FilterKind.TheVariants.{Rule};
ghost use Rattle.frame_filters.specs.Filters.{new_filter};
ghost use Rattle.rule_filters.specs.States.{programmed_state, room_of};

use crate::parts::Programmed;
use buffer_pools::BufferList;
use driver_calls::{AttachFault, FilterDriver, LentFate};
use driver_tray::Tray;
use driver_views::Served;
use journal_types::Setup;
use ndis_base::{
    FilterKind, ListStatus, OidNo, OidStatus, OidValue, OutOfMemory, StatusName, StatusNo,
};
use stack_rules::Request;
use std::alloc::Global;

/// A rule filter does with the frames of each list what its programs say. It attaches with any programs.
#[derive(Drop)]
pub struct RuleFilter {
    core: Programmed,
    ghost is_rule: { core.kind ≡ Rule },
}

impl RuleFilter {
    /// A filter on the shelf that was never called. It takes no memory.
    pub fn make(alloc: Global) -> Result<RuleFilter, OutOfMemory>
        ensures { IfOk result (λ f. ⟦<RuleFilter as FilterDriver>⟧.state f ≡ new_filter Rule) }
    {
        Ok(RuleFilter {
            core: Programmed::make(alloc, FilterKind::Rule),
        })
    }
}

impl FilterDriver for RuleFilter {
    ghost state = { λ f. programmed_state f.core };

    ghost room = { λ f. room_of f.core };

    fn kind(&self) -> FilterKind {
        self.core.kind
    }

    fn served(&self) -> Served {
        self.core.served
    }

    fn refusals(&self) -> u64 {
        self.core.refusals
    }

    fn held(&self) -> usize {
        self.core.held()
    }

    fn make_room(&mut self, _max: usize) -> Result<(), OutOfMemory> {
        self.core.make_room()
    }

    /// It never refuses.
    fn attach(&mut self, _alloc: Global, setup: Setup) -> Result<(), AttachFault>
        ensures attached { OnOk result (programmed_state self.new.core ≡ record (programmed_state self.old.core) { setup = Some setup }) }
        ensures fits { IsOk result }
    {
        self.core.attach(setup);
        Ok(())
    }

    fn send(&mut self, list: BufferList, tray: &mut Tray) {
        self.core.send(list, tray);
    }

    fn send_complete(&mut self, list: BufferList, status: ListStatus, tray: &mut Tray) {
        self.core.send_complete(list, status, tray);
    }

    fn receive(&mut self, list: BufferList, tray: &mut Tray) {
        self.core.receive(list, tray);
    }

    fn receive_lent(&mut self, list: &BufferList, tray: &mut Tray) -> LentFate {
        self.core.receive_lent(list, tray)
    }

    fn returned(&mut self, list: BufferList, status: ListStatus, tray: &mut Tray) {
        self.core.returned(list, status, tray);
    }

    fn status(&mut self, number: StatusNo, name: StatusName, tray: &mut Tray) {
        self.core.status(number, name, tray);
    }

    fn oid(&mut self, request: &Request, tray: &mut Tray) {
        self.core.oid(request, tray);
    }

    fn oid_complete(
        &mut self,
        request: OidNo,
        status: OidStatus,
        value: &OidValue,
        tray: &mut Tray,
    ) {
        self.core.oid_complete(request, status, value, tray);
    }

    fn cancel(&mut self, _id: u32, _tray: &mut Tray) {}

    fn tick(&mut self, _tray: &mut Tray) {}

    fn pause(&mut self) {}

    fn restart(&mut self) {}

    fn detach(&mut self) {
        self.core.detach();
    }
}
