//! What a book calls of a filter driver.
ghost use Rattle.std.specs.Prelude.{◌≡◌, ℕ, ◌≤◌, [], None, Some, OnOk, IfErr, length};
ghost use Rattle.ndis_base.specs.declared.Direction.TheVariants as direction;
ghost use Rattle.promise_rules.specs.declared.Called.TheVariants as called;
ghost use Rattle.driver_views.specs.States.{FilterState};
ghost use Rattle.driver_calls.specs.declared.fates.LentFate.TheVariants.{Left};
ghost use Rattle.driver_calls.specs.declared.faults.AttachFault.TheVariants.{Refused, Memory};
ghost use Rattle.driver_calls.specs.Filters.{MayHandle, IsHandled, MayComplete, IsCompleted, MayGiveAll, IsCancelled, IsDrained, MayAttach, Refuses, IsLentTo, MaySee, IsSeenBy, MayForward, IsForwarded, MayFinish, IsFinished};

use crate::fates::LentFate;
use crate::faults::AttachFault;
use buffer_pools::BufferList;
use driver_tray::Tray;
use driver_views::Served;
use journal_types::Setup;
use ndis_base::{
    FilterKind, ListStatus, OidNo, OidStatus, OidValue, OutOfMemory, StatusName, StatusNo,
};
use stack_rules::Request;
use std::alloc::Global;

/// A filter driver (WDK, "NDIS Filter Drivers"), as its author writes it.
pub trait FilterDriver: Send + Drop {
    /// What contracts see of it.
    ghost state: { Self → FilterState };

    /// For how many more lists that it keeps it has room.
    ghost room: { Self → ℕ };

    /// Its kind. No call changes it.
    fn kind(&self) -> FilterKind
        ensures { result ≡ (state self.now).kind };

    /// How often each call was made of it.
    fn served(&self) -> Served
        ensures { result ≡ (state self.now).did.served };

    /// How often it refused to attach.
    fn refusals(&self) -> u64
        ensures { result ≡ (state self.now).refusals };

    /// How many lists it keeps.
    fn held(&self) -> usize
        ensures { result ≡ length (state self.now).kept };

    /// Makes room for one event whose frames have at most `max` bytes. Until then no other call but
    /// `attach` takes memory.
    fn make_room(&mut self, max: usize) -> Result<(), OutOfMemory>
        ensures state { state self.new ≡ state self.old }
        ensures room { OnOk result (1 ≤ room self.new) };

    /// Attaches the driver with a set-up (WDK, "FilterAttach"). It may refuse, and counts that.
    fn attach(&mut self, alloc: Global, setup: Setup) -> Result<(), AttachFault>
        requires { MayAttach (state self.old) }
        ensures attached { OnOk result (state self.new ≡ record (state self.old) { setup = Some setup }) }
        ensures refused { IfErr result (λ fault. fault ≡ Refused → Refuses (state self.old) (state self.new)) }
        ensures memory { IfErr result (λ fault. fault ≡ Memory → state self.new ≡ state self.old) };

    /// A send on its way down (WDK, "FilterSendNetBufferLists").
    fn send(&mut self, list: BufferList, tray: &mut Tray)
        requires may { MayHandle called.Send direction.Down (state self.old) list tray.old }
        requires room { 1 ≤ room self.old }
        ensures { IsHandled called.Send (state self.old) list tray.old (state self.new) tray.new };

    /// A send on its way home (WDK, "FilterSendNetBufferListsComplete").
    fn send_complete(&mut self, list: BufferList, status: ListStatus, tray: &mut Tray)
        requires may { MayComplete called.SendComplete direction.Down (state self.old) list tray.old }
        ensures { IsCompleted called.SendComplete (state self.old) list status tray.old (state self.new) tray.new };

    /// A receive on its way up (WDK, "FilterReceiveNetBufferLists").
    fn receive(&mut self, list: BufferList, tray: &mut Tray)
        requires may { MayHandle called.Receive direction.Up (state self.old) list tray.old }
        requires room { 1 ≤ room self.old }
        ensures { IsHandled called.Receive (state self.old) list tray.old (state self.new) tray.new };

    /// A receive that stays its lender's (WDK, "FilterReceiveNetBufferLists" with
    /// NDIS_RECEIVE_FLAGS_RESOURCES): what it makes of the list, which is its lender's again afterwards. Where
    /// it leaves the list as it is, it uses no room.
    fn receive_lent(&mut self, list: &BufferList, tray: &mut Tray) -> LentFate
        requires may { MayHandle called.ReceiveLent direction.Lent (state self.old) list.now tray.old }
        requires room { 1 ≤ room self.old }
        ensures lent { IsLentTo (state self.old) list.now tray.old result (state self.new) tray.new }
        ensures room { result ≡ Left → room self.old ≤ room self.new };

    /// A receive on its way home (WDK, "FilterReturnNetBufferLists").
    fn returned(&mut self, list: BufferList, status: ListStatus, tray: &mut Tray)
        requires may { MayComplete called.Returned direction.Up (state self.old) list tray.old }
        ensures { IsCompleted called.Returned (state self.old) list status tray.old (state self.new) tray.new };

    /// A status on its way up (WDK, "FilterStatus").
    fn status(&mut self, number: StatusNo, name: StatusName, tray: &mut Tray)
        requires may { MaySee (state self.old) tray.old }
        ensures { IsSeenBy (state self.old) number name tray.old (state self.new) tray.new };

    /// A request is given to it, which it forwards by a clone (WDK, "FilterOidRequest").
    fn oid(&mut self, request: &Request, tray: &mut Tray)
        requires may { MayForward (state self.old) request.now tray.old }
        ensures { IsForwarded (state self.old) request.now tray.old (state self.new) tray.new };

    /// The clone by which it forwarded a request is done: it completes the request with the clone's status and
    /// value (WDK, "FilterOidRequestComplete").
    fn oid_complete(&mut self, request: OidNo, status: OidStatus, value: &OidValue, tray: &mut Tray)
        requires may { MayFinish (state self.old) value.now tray.old }
        ensures { IsFinished (state self.old) request status value.now tray.old (state self.new) tray.new };

    /// Turns back the sends that it keeps ready under an identifier (WDK, "FilterCancelSendNetBufferLists").
    fn cancel(&mut self, id: u32, tray: &mut Tray)
        requires { MayGiveAll (state self.old) tray.old }
        ensures { IsCancelled (state self.old) id tray.old (state self.new) tray.new };

    /// Passes on what it keeps ready, while the stack is to become empty.
    fn tick(&mut self, tray: &mut Tray)
        requires { MayGiveAll (state self.old) tray.old }
        ensures { IsDrained (state self.old) tray.old (state self.new) tray.new };

    /// WDK, "FilterPause".
    fn pause(&mut self)
        ensures { state self.new ≡ state self.old };

    /// WDK, "FilterRestart".
    fn restart(&mut self)
        ensures { state self.new ≡ state self.old };

    /// WDK, "FilterDetach".
    fn detach(&mut self)
        requires { (state self.old).kept ≡ [] }
        ensures { state self.new ≡ record (state self.old) { setup = None } };
}

/// A filter driver, as a book calls it.
pub trait FilterCalls: Drop {
    /// What contracts see of it.
    ghost state: { Self → FilterState };

    /// For how many more lists that it keeps it has room.
    ghost room: { Self → ℕ };

    /// Its kind. No call changes it.
    fn kind(&self) -> FilterKind
        ensures { result ≡ (state self.now).kind };

    /// How often each call was made of it.
    fn served(&self) -> Served
        ensures { result ≡ (state self.now).did.served };

    /// How often it refused to attach.
    fn refusals(&self) -> u64
        ensures { result ≡ (state self.now).refusals };

    /// How many lists it keeps.
    fn held(&self) -> usize
        ensures { result ≡ length (state self.now).kept };

    /// Makes room for one event whose frames have at most `max` bytes. Until then no other call but
    /// `attach` takes memory.
    fn make_room(&mut self, max: usize) -> Result<(), OutOfMemory>
        ensures state { state self.new ≡ state self.old }
        ensures room { OnOk result (1 ≤ room self.new) };

    /// Attaches the driver with a set-up (WDK, "FilterAttach"). It may refuse, and counts that.
    fn attach(&mut self, alloc: Global, setup: Setup) -> Result<(), AttachFault>
        requires { MayAttach (state self.old) }
        ensures attached { OnOk result (state self.new ≡ record (state self.old) { setup = Some setup }) }
        ensures refused { IfErr result (λ fault. fault ≡ Refused → Refuses (state self.old) (state self.new)) }
        ensures memory { IfErr result (λ fault. fault ≡ Memory → state self.new ≡ state self.old) };

    /// A send on its way down (WDK, "FilterSendNetBufferLists").
    fn send(&mut self, list: BufferList, tray: &mut Tray)
        requires may { MayHandle called.Send direction.Down (state self.old) list tray.old }
        requires room { 1 ≤ room self.old }
        ensures { IsHandled called.Send (state self.old) list tray.old (state self.new) tray.new };

    /// A send on its way home (WDK, "FilterSendNetBufferListsComplete").
    fn send_complete(&mut self, list: BufferList, status: ListStatus, tray: &mut Tray)
        requires may { MayComplete called.SendComplete direction.Down (state self.old) list tray.old }
        ensures { IsCompleted called.SendComplete (state self.old) list status tray.old (state self.new) tray.new };

    /// A receive on its way up (WDK, "FilterReceiveNetBufferLists").
    fn receive(&mut self, list: BufferList, tray: &mut Tray)
        requires may { MayHandle called.Receive direction.Up (state self.old) list tray.old }
        requires room { 1 ≤ room self.old }
        ensures { IsHandled called.Receive (state self.old) list tray.old (state self.new) tray.new };

    /// A receive that stays its lender's (WDK, "FilterReceiveNetBufferLists" with
    /// NDIS_RECEIVE_FLAGS_RESOURCES): what it makes of the list, which is its lender's again afterwards. Where
    /// it leaves the list as it is, it uses no room.
    fn receive_lent(&mut self, list: &BufferList, tray: &mut Tray) -> LentFate
        requires may { MayHandle called.ReceiveLent direction.Lent (state self.old) list.now tray.old }
        requires room { 1 ≤ room self.old }
        ensures lent { IsLentTo (state self.old) list.now tray.old result (state self.new) tray.new }
        ensures room { result ≡ Left → room self.old ≤ room self.new };

    /// A receive on its way home (WDK, "FilterReturnNetBufferLists").
    fn returned(&mut self, list: BufferList, status: ListStatus, tray: &mut Tray)
        requires may { MayComplete called.Returned direction.Up (state self.old) list tray.old }
        ensures { IsCompleted called.Returned (state self.old) list status tray.old (state self.new) tray.new };

    /// A status on its way up (WDK, "FilterStatus").
    fn status(&mut self, number: StatusNo, name: StatusName, tray: &mut Tray)
        requires may { MaySee (state self.old) tray.old }
        ensures { IsSeenBy (state self.old) number name tray.old (state self.new) tray.new };

    /// A request is given to it, which it forwards by a clone (WDK, "FilterOidRequest").
    fn oid(&mut self, request: &Request, tray: &mut Tray)
        requires may { MayForward (state self.old) request.now tray.old }
        ensures { IsForwarded (state self.old) request.now tray.old (state self.new) tray.new };

    /// The clone by which it forwarded a request is done: it completes the request with the clone's status and
    /// value (WDK, "FilterOidRequestComplete").
    fn oid_complete(&mut self, request: OidNo, status: OidStatus, value: &OidValue, tray: &mut Tray)
        requires may { MayFinish (state self.old) value.now tray.old }
        ensures { IsFinished (state self.old) request status value.now tray.old (state self.new) tray.new };

    /// Turns back the sends that it keeps ready under an identifier (WDK, "FilterCancelSendNetBufferLists").
    fn cancel(&mut self, id: u32, tray: &mut Tray)
        requires { MayGiveAll (state self.old) tray.old }
        ensures { IsCancelled (state self.old) id tray.old (state self.new) tray.new };

    /// Passes on what it keeps ready, while the stack is to become empty.
    fn tick(&mut self, tray: &mut Tray)
        requires { MayGiveAll (state self.old) tray.old }
        ensures { IsDrained (state self.old) tray.old (state self.new) tray.new };

    /// WDK, "FilterPause".
    fn pause(&mut self)
        ensures { state self.new ≡ state self.old };

    /// WDK, "FilterRestart".
    fn restart(&mut self)
        ensures { state self.new ≡ state self.old };

    /// WDK, "FilterDetach".
    fn detach(&mut self)
        requires { (state self.old).kept ≡ [] }
        ensures { state self.new ≡ record (state self.old) { setup = None } };
}

impl FilterCalls for Box<dyn FilterDriver> {
    ghost state = { λ b. (FilterDriver-box b).state b.value };

    ghost room = { λ b. (FilterDriver-box b).room b.value };

    fn kind(&self) -> FilterKind {
        (**self).kind()
    }

    fn served(&self) -> Served {
        (**self).served()
    }

    fn refusals(&self) -> u64 {
        (**self).refusals()
    }

    fn held(&self) -> usize {
        (**self).held()
    }

    fn make_room(&mut self, max: usize) -> Result<(), OutOfMemory> {
        (**self).make_room(max)
    }

    fn attach(&mut self, alloc: Global, setup: Setup) -> Result<(), AttachFault> {
        (**self).attach(alloc, setup)
    }

    fn send(&mut self, list: BufferList, tray: &mut Tray) {
        (**self).send(list, tray);
    }

    fn send_complete(&mut self, list: BufferList, status: ListStatus, tray: &mut Tray) {
        (**self).send_complete(list, status, tray);
    }

    fn receive(&mut self, list: BufferList, tray: &mut Tray) {
        (**self).receive(list, tray);
    }

    fn receive_lent(&mut self, list: &BufferList, tray: &mut Tray) -> LentFate {
        (**self).receive_lent(list, tray)
    }

    fn returned(&mut self, list: BufferList, status: ListStatus, tray: &mut Tray) {
        (**self).returned(list, status, tray);
    }

    fn status(&mut self, number: StatusNo, name: StatusName, tray: &mut Tray) {
        (**self).status(number, name, tray);
    }

    fn oid(&mut self, request: &Request, tray: &mut Tray) {
        (**self).oid(request, tray);
    }

    fn oid_complete(
        &mut self,
        request: OidNo,
        status: OidStatus,
        value: &OidValue,
        tray: &mut Tray,
    ) {
        (**self).oid_complete(request, status, value, tray);
    }

    fn cancel(&mut self, id: u32, tray: &mut Tray) {
        (**self).cancel(id, tray);
    }

    fn tick(&mut self, tray: &mut Tray) {
        (**self).tick(tray);
    }

    fn pause(&mut self) {
        (**self).pause();
    }

    fn restart(&mut self) {
        (**self).restart();
    }

    fn detach(&mut self) {
        (**self).detach();
    }
}
