//! A filter that holds what it is given.
ghost use Rattle.std.specs.Prelude.{◌≡◌, IfOk};
ghost use Rattle.std.specs.Option.{ForSome};
ghost use Rattle.ndis_base.specs.declared.FilterKind.TheVariants.{Hold};
ghost use Rattle.frame_filters.specs.Filters.{filter_of, new_filter, IsEmpty};

use crate::counts::{is_empty, not_called, risen};
use crate::originals::take_home;
use buffer_pools::BufferList;
use driver_calls::{AttachFault, FilterDriver, LentFate};
use driver_tray::Tray;
use driver_views::Served;
use journal_types::Setup;
use kept_lists::KeptLists;
use ndis_base::{
    FilterKind, ListStatus, OidNo, OidStatus, OidValue, OutOfMemory, StatusName, StatusNo,
};
use stack_rules::Request;
use std::alloc::Global;

/// A hold filter has no rules. It keeps each list that it is given, and passes all on when the stack is to become
/// empty. It refuses to attach where it is set up with rules.
#[derive(Drop)]
pub struct HoldFilter {
    setup: Option<Setup>,
    served: Served,
    refusals: u64,
    kept: KeptLists,
    ghost empty: { ForSome setup IsEmpty },
}

impl HoldFilter {
    /// A filter on the shelf that was never called. It takes no memory.
    pub fn make(alloc: Global) -> Result<HoldFilter, OutOfMemory>
        ensures { IfOk result (λ f. ⟦<HoldFilter as FilterDriver>⟧.state f ≡ new_filter Hold) }
    {
        Ok(HoldFilter {
            setup: None,
            served: not_called(),
            refusals: 0,
            kept: KeptLists::empty(alloc),
        })
    }
}

impl FilterDriver for HoldFilter {
    ghost state = { λ f. filter_of Hold f.setup f.kept.lists f.served f.refusals };

    ghost room = { λ f. f.kept.room };

    fn kind(&self) -> FilterKind {
        FilterKind::Hold
    }

    fn served(&self) -> Served {
        self.served
    }

    fn refusals(&self) -> u64 {
        self.refusals
    }

    fn held(&self) -> usize {
        self.kept.len()
    }

    fn make_room(&mut self, _max: usize) -> Result<(), OutOfMemory> {
        self.kept.make_room()
    }

    fn attach(&mut self, _alloc: Global, setup: Setup) -> Result<(), AttachFault> {
        if is_empty(&setup) {
            self.setup = Some(setup);
            Ok(())
        } else {
            self.refusals = risen(self.refusals);
            Err(AttachFault::Refused)
        }
    }

    #[tactic(auto, using(crate::proofs::Passing::holds_all))]
    fn send(&mut self, list: BufferList, tray: &mut Tray) {
        self.served.send += 1;
        tray.keep_note(list.number());
        self.kept.push(list);
    }

    #[tactic(auto, using(crate::proofs::Homeward::completes_as))]
    fn send_complete(&mut self, list: BufferList, status: ListStatus, tray: &mut Tray) {
        self.served.send_complete += 1;
        take_home(&mut self.kept, list, status, tray);
    }

    #[tactic(auto, using(crate::proofs::Passing::holds_all))]
    fn receive(&mut self, list: BufferList, tray: &mut Tray) {
        self.served.receive += 1;
        tray.keep_note(list.number());
        self.kept.push(list);
    }

    /// It keeps no list that is lent to it.
    fn receive_lent(&mut self, _list: &BufferList, _tray: &mut Tray) -> LentFate {
        self.served.receive_lent += 1;
        LentFate::Left
    }

    #[tactic(auto, using(crate::proofs::Homeward::completes_as))]
    fn returned(&mut self, list: BufferList, status: ListStatus, tray: &mut Tray) {
        self.served.returned += 1;
        take_home(&mut self.kept, list, status, tray);
    }

    fn status(&mut self, number: StatusNo, name: StatusName, tray: &mut Tray) {
        self.served.status += 1;
        tray.indicate_status(number, name);
    }

    fn oid(&mut self, request: &Request, tray: &mut Tray) {
        self.served.oid += 1;
        tray.forward_clone(request);
    }

    fn oid_complete(
        &mut self,
        request: OidNo,
        status: OidStatus,
        value: &OidValue,
        tray: &mut Tray,
    ) {
        self.served.oid_complete += 1;
        tray.complete(request, status, value);
    }

    fn cancel(&mut self, id: u32, tray: &mut Tray) {
        self.kept.cancel(id, tray);
    }

    fn tick(&mut self, tray: &mut Tray) {
        self.kept.pass_on(tray);
    }

    fn pause(&mut self) {}

    fn restart(&mut self) {}

    fn detach(&mut self) {
        self.setup = None;
    }
}
