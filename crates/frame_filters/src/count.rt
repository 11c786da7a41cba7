//! A filter that counts.
ghost use Rattle.std.specs.Prelude.{◌≡◌, IfOk};
ghost use Rattle.ndis_base.specs.declared.FilterKind.TheVariants.{Count};
ghost use Rattle.frame_filters.specs.Filters.{new_filter};
ghost use Rattle.frame_filters.specs.States.{plain_state};

use crate::parts::Plain;
use buffer_pools::BufferList;
use driver_calls::{AttachFault, FilterDriver, LentFate};
use driver_tray::Tray;
use driver_views::Served;
use journal_types::Setup;
use ndis_base::{
    FilterKind, ListStatus, OidNo, OidStatus, OidValue, OutOfMemory, StatusName, StatusNo,
};
use stack_rules::Request;
use std::alloc::Global;

/// A count filter has no rules, counts each list that it is given, and passes it on. It refuses to attach where
/// it is set up with rules.
#[derive(Drop)]
pub struct CountFilter {
    core: Plain,
    ghost is_count: { core.kind ≡ Count },
}

impl CountFilter {
    /// A filter on the shelf that was never called. It takes no memory.
    pub fn make(_alloc: Global) -> Result<CountFilter, OutOfMemory>
        ensures { IfOk result (λ f. ⟦<CountFilter as FilterDriver>⟧.state f ≡ new_filter Count) }
    {
        Ok(CountFilter {
            core: Plain::make(FilterKind::Count),
        })
    }
}

impl FilterDriver for CountFilter {
    ghost state = { λ f. plain_state f.core };

    ghost room = { λ _. 1 };

    fn kind(&self) -> FilterKind {
        self.core.kind
    }

    fn served(&self) -> Served {
        self.core.served
    }

    fn refusals(&self) -> u64 {
        self.core.refusals
    }

    fn held(&self) -> usize {
        0
    }

    fn make_room(&mut self, _max: usize) -> Result<(), OutOfMemory> {
        Ok(())
    }

    fn attach(&mut self, _alloc: Global, setup: Setup) -> Result<(), AttachFault> {
        self.core.attach(setup)
    }

    fn send(&mut self, list: BufferList, tray: &mut Tray) {
        self.core.send(list, tray);
    }

    fn send_complete(&mut self, list: BufferList, status: ListStatus, tray: &mut Tray) {
        self.core.send_complete(list, status, tray);
    }

    fn receive(&mut self, list: BufferList, tray: &mut Tray) {
        self.core.receive(list, tray);
    }

    fn receive_lent(&mut self, _list: &BufferList, _tray: &mut Tray) -> LentFate {
        self.core.receive_lent()
    }

    fn returned(&mut self, list: BufferList, status: ListStatus, tray: &mut Tray) {
        self.core.returned(list, status, tray);
    }

    fn status(&mut self, number: StatusNo, name: StatusName, tray: &mut Tray) {
        self.core.status(number, name, tray);
    }

    fn oid(&mut self, request: &Request, tray: &mut Tray) {
        self.core.oid(request, tray);
    }

    fn oid_complete(
        &mut self,
        request: OidNo,
        status: OidStatus,
        value: &OidValue,
        tray: &mut Tray,
    ) {
        self.core.oid_complete(request, status, value, tray);
    }

    fn cancel(&mut self, _id: u32, _tray: &mut Tray) {}

    fn tick(&mut self, _tray: &mut Tray) {}

    fn pause(&mut self) {}

    fn restart(&mut self) {}

    fn detach(&mut self) {
        self.core.detach();
    }
}
