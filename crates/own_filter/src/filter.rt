//! What the filter does when it is called.
ghost use Rattle.std.specs.Prelude.{◌≡◌, ◌↔◌, Some, IsOk, OnOk, OnErr, IfErr, IsTrue};
ghost use Rattle.ndis_base.specs.declared.Direction.TheVariants as direction;
ghost use Rattle.ndis_base.specs.declared.FilterKind.TheVariants.{Rule};
ghost use Rattle.promise_rules.specs.declared.Called.TheVariants as called;
ghost use Rattle.driver_calls.specs.declared.faults.AttachFault.TheVariants.{Refused};
ghost use Rattle.driver_calls.specs.Filters.{MayHandle, IsHandled, IsLentTo, Refuses};
ghost use Rattle.frame_filters.specs.Filters.{new_filter};
ghost use Rattle.classify_filters.specs.Blocking.{is_blocking};
ghost use Rattle.own_filter.specs.Counting.{counted_list};
ghost use Rattle.own_filter.specs.States.{state_of};

use crate::board::Board;
use crate::class::EtherTypeClass;
use crate::counts::Counts;
use crate::parts::EtherTypeFilter;
use buffer_pools::BufferList;
use classify_filters::{block, is_blocking, lent, pass_home};
use driver_calls::{AttachFault, FilterDriver, LentFate};
use driver_tray::Tray;
use driver_views::Served;
use frame_filters::{not_called, risen};
use journal_types::Setup;
use ndis_base::{
    FilterKind, ListStatus, OidNo, OidStatus, OidValue, OutOfMemory, StatusName, StatusNo,
};
use stack_rules::Request;
use std::alloc::Global;
use std::sync::Arc;

impl EtherTypeFilter {
    /// A filter on the shelf that was never called. It tells what it counted on the board.
    pub fn make(blocked: u16, board: Arc<Board, Global>) -> EtherTypeFilter
        ensures { ⟦<EtherTypeFilter as FilterDriver>⟧.state result ≡ new_filter Rule }
    {
        EtherTypeFilter {
            class: EtherTypeClass { number: blocked },
            setup: None,
            served: not_called(),
            refusals: 0,
            seen: Counts::none(),
            board,
        }
    }
}

impl FilterDriver for EtherTypeFilter {
    ghost state = { λ f. state_of f };

    ghost room = { λ _. 1 };

    fn kind(&self) -> FilterKind {
        FilterKind::Rule
    }

    fn served(&self) -> Served {
        self.served
    }

    fn refusals(&self) -> u64 {
        self.refusals
    }

    fn held(&self) -> usize {
        0
    }

    fn make_room(&mut self, _max: usize) -> Result<(), OutOfMemory> {
        Ok(())
    }

    /// It refuses exactly the programs that say anything else.
    fn attach(&mut self, _alloc: Global, setup: Setup) -> Result<(), AttachFault>
        ensures attached { OnOk result (state_of self.new ≡ record (state_of self.old) { setup = Some setup }) }
        ensures fits { IsOk result ↔ IsTrue (is_blocking self.old.class.number setup) }
        ensures refused { IfErr result (λ fault. fault ≡ Refused) }
        ensures refuses { OnErr result (Refuses (state_of self.old) (state_of self.new)) }
    {
        if is_blocking(self.class.number, &setup) {
            self.setup = Some(setup);
            Ok(())
        } else {
            self.refusals = risen(self.refusals);
            Err(AttachFault::Refused)
        }
    }

    fn send(&mut self, list: BufferList, tray: &mut Tray)
        requires may { MayHandle called.Send direction.Down (state_of self.old) list tray.old }
        ensures handled { IsHandled called.Send (state_of self.old) list tray.old (state_of self.new) tray.new }
        ensures seen { self.new.seen ≡ counted_list list.frames self.old.seen }
    {
        self.served.send += 1;
        self.seen.add_list(&list);
        block(&self.class, list, tray);
    }

    fn send_complete(&mut self, list: BufferList, status: ListStatus, tray: &mut Tray) {
        self.served.send_complete += 1;
        pass_home(list, status, tray);
    }

    fn receive(&mut self, list: BufferList, tray: &mut Tray)
        requires may { MayHandle called.Receive direction.Up (state_of self.old) list tray.old }
        ensures handled { IsHandled called.Receive (state_of self.old) list tray.old (state_of self.new) tray.new }
        ensures seen { self.new.seen ≡ counted_list list.frames self.old.seen }
    {
        self.served.receive += 1;
        self.seen.add_list(&list);
        block(&self.class, list, tray);
    }

    /// It leaves a lent list or drops it, and never copies one.
    fn receive_lent(&mut self, list: &BufferList, tray: &mut Tray) -> LentFate
        requires may { MayHandle called.ReceiveLent direction.Lent (state_of self.old) list.now tray.old }
        ensures lent { IsLentTo (state_of self.old) list.now tray.old result (state_of self.new) tray.new }
        ensures seen { self.new.seen ≡ counted_list list.now.frames self.old.seen }
    {
        self.served.receive_lent += 1;
        self.seen.add_list(list);
        lent(&self.class, list)
    }

    fn returned(&mut self, list: BufferList, status: ListStatus, tray: &mut Tray) {
        self.served.returned += 1;
        pass_home(list, status, tray);
    }

    fn status(&mut self, number: StatusNo, name: StatusName, tray: &mut Tray) {
        self.served.status += 1;
        tray.indicate_status(number, name);
    }

    fn oid(&mut self, request: &Request, tray: &mut Tray) {
        self.served.oid += 1;
        tray.forward_clone(request);
    }

    fn oid_complete(
        &mut self,
        request: OidNo,
        status: OidStatus,
        value: &OidValue,
        tray: &mut Tray,
    ) {
        self.served.oid_complete += 1;
        tray.complete(request, status, value);
    }

    fn cancel(&mut self, _id: u32, _tray: &mut Tray) {}

    fn tick(&mut self, _tray: &mut Tray) {}

    fn pause(&mut self) {}

    fn restart(&mut self) {}

    /// It tells on the board what it counted.
    fn detach(&mut self) {
        self.board.tell(&self.seen);
        self.setup = None;
    }
}
