//! What filters with programs have in common.
ghost use Rattle.std.specs.Prelude.{◌≡◌, ◌≤◌, false, None, Some, OnOk, IsSome, length};
ghost use Rattle.ndis_base.specs.declared.Direction.TheVariants as direction;
ghost use Rattle.promise_rules.specs.declared.Called.TheVariants as called;
ghost use Rattle.stack_rules.specs.Tests.{is_hold};
ghost use Rattle.hand_lemmas.specs.Frames.{AreSized};
ghost use Rattle.driver_calls.specs.Rooms.{HasRoomForNew};
ghost use Rattle.driver_calls.specs.Filters.{MayHandle, IsHandled, MayComplete, IsCompleted, MaySee, IsSeenBy, MayForward, IsForwarded, MayFinish, IsFinished, Refuses, IsLentTo};
ghost use Rattle.frame_filters.specs.Filters.{new_filter};
ghost use Rattle.rule_filters.specs.States.{programmed_state, room_of};
ghost use Rattle.rule_filters.specs.Changes.{HandlesList, HandlesLentList};
ghost use Rattle.driver_calls.specs.declared.fates.LentFate.TheVariants.{Left};

use crate::handling::{handle, handle_lent};
use crate::parts::Programmed;
use buffer_pools::BufferList;
use driver_calls::LentFate;
use driver_tray::Tray;
use frame_filters::{not_called, risen, take_home};
use frame_programs::MadeFrames;
use journal_types::Setup;
use kept_lists::KeptLists;
use ndis_base::{
    FilterKind, ListStatus, OidNo, OidStatus, OidValue, OutOfMemory, StatusName, StatusNo,
};
use stack_rules::Request;
use std::alloc::Global;

impl Programmed {
    /// On the shelf, and never called.
    pub(crate) fn make(alloc: Global, kind: FilterKind) -> Programmed
        requires { is_hold kind ≡ false }
        ensures { programmed_state result ≡ new_filter kind }
    {
        Programmed {
            kind,
            setup: None,
            served: not_called(),
            refusals: 0,
            kept: KeptLists::empty(alloc),
            made: MadeFrames::empty(alloc),
        }
    }

    /// How many lists it keeps.
    pub(crate) fn held(&self) -> usize
        ensures { result ≡ length (programmed_state self.now).kept }
    {
        self.kept.len()
    }

    /// Makes room for one more kept list, and for the frames of its clone.
    pub(crate) fn make_room(&mut self) -> Result<(), OutOfMemory>
        ensures state { programmed_state self.new ≡ programmed_state self.old }
        ensures room { OnOk result (1 ≤ room_of self.new) }
    {
        self.kept.make_room()?;
        self.made.make_room()
    }

    /// Attaches it.
    pub(crate) fn attach(&mut self, setup: Setup)
        ensures { programmed_state self.new ≡ record (programmed_state self.old) { setup = Some setup } }
    {
        self.setup = Some(setup);
    }

    /// Counts that it refused to attach.
    pub(crate) fn refuse(&mut self)
        ensures { Refuses (programmed_state self.old) (programmed_state self.new) }
    {
        self.refusals = risen(self.refusals);
    }

    fn handle(&mut self, list: BufferList, tray: &mut Tray)
        requires setup { IsSome self.old.setup }
        requires sized { AreSized list.frames }
        requires pool { tray.old.pool.bytes ≡ 1518 }
        requires tray_room { HasRoomForNew 3 1 tray.old }
        requires room { 1 ≤ room_of self.old }
        ensures state { programmed_state self.new ≡ record (programmed_state self.old) { kept = self.new.kept.lists } }
        ensures handles { HandlesList self.old.setup self.old.kept.lists list tray.old self.new.kept.lists tray.new }
    {
        match &self.setup {
            Some(setup) => handle(setup, &mut self.kept, &mut self.made, list, tray),
            None => unreachable!(),
        }
    }

    pub(crate) fn send(&mut self, list: BufferList, tray: &mut Tray)
        requires may { MayHandle called.Send direction.Down (programmed_state self.old) list tray.old }
        requires room { 1 ≤ room_of self.old }
        ensures { IsHandled called.Send (programmed_state self.old) list tray.old (programmed_state self.new) tray.new }
    {
        self.served.send += 1;
        self.handle(list, tray);
    }

    pub(crate) fn send_complete(&mut self, list: BufferList, status: ListStatus, tray: &mut Tray)
        requires { MayComplete called.SendComplete direction.Down (programmed_state self.old) list tray.old }
        ensures { IsCompleted called.SendComplete (programmed_state self.old) list status tray.old (programmed_state self.new) tray.new }
    {
        self.served.send_complete += 1;
        take_home(&mut self.kept, list, status, tray);
    }

    pub(crate) fn receive(&mut self, list: BufferList, tray: &mut Tray)
        requires may { MayHandle called.Receive direction.Up (programmed_state self.old) list tray.old }
        requires room { 1 ≤ room_of self.old }
        ensures { IsHandled called.Receive (programmed_state self.old) list tray.old (programmed_state self.new) tray.new }
    {
        self.served.receive += 1;
        self.handle(list, tray);
    }

    fn handle_lent(&mut self, list: &BufferList, tray: &mut Tray) -> LentFate
        requires setup { IsSome self.old.setup }
        requires sized { AreSized list.now.frames }
        requires pool { tray.old.pool.bytes ≡ 1518 }
        requires tray_room { HasRoomForNew 3 1 tray.old }
        requires room { 1 ≤ room_of self.old }
        ensures state { programmed_state self.new ≡ programmed_state self.old }
        ensures handles { HandlesLentList self.old.setup list.now tray.old tray.new result }
        ensures room { result ≡ Left → room_of self.new ≡ room_of self.old }
    {
        match &self.setup {
            Some(setup) => handle_lent(setup, &mut self.made, list, tray),
            None => unreachable!(),
        }
    }

    pub(crate) fn receive_lent(&mut self, list: &BufferList, tray: &mut Tray) -> LentFate
        requires may { MayHandle called.ReceiveLent direction.Lent (programmed_state self.old) list.now tray.old }
        requires room { 1 ≤ room_of self.old }
        ensures lent { IsLentTo (programmed_state self.old) list.now tray.old result (programmed_state self.new) tray.new }
        ensures room { result ≡ Left → room_of self.old ≤ room_of self.new }
    {
        self.served.receive_lent += 1;
        self.handle_lent(list, tray)
    }

    pub(crate) fn returned(&mut self, list: BufferList, status: ListStatus, tray: &mut Tray)
        requires { MayComplete called.Returned direction.Up (programmed_state self.old) list tray.old }
        ensures { IsCompleted called.Returned (programmed_state self.old) list status tray.old (programmed_state self.new) tray.new }
    {
        self.served.returned += 1;
        take_home(&mut self.kept, list, status, tray);
    }

    /// Counts a status, and indicates it further up.
    pub(crate) fn status(&mut self, number: StatusNo, name: StatusName, tray: &mut Tray)
        requires { MaySee (programmed_state self.old) tray.old }
        ensures { IsSeenBy (programmed_state self.old) number name tray.old (programmed_state self.new) tray.new }
    {
        self.served.status += 1;
        tray.indicate_status(number, name);
    }

    /// Counts a request that is given to it, and forwards it by a clone.
    pub(crate) fn oid(&mut self, request: &Request, tray: &mut Tray)
        requires { MayForward (programmed_state self.old) request.now tray.old }
        ensures { IsForwarded (programmed_state self.old) request.now tray.old (programmed_state self.new) tray.new }
    {
        self.served.oid += 1;
        tray.forward_clone(request);
    }

    /// Counts a clone that is done, and completes the request with the clone's status and value.
    pub(crate) fn oid_complete(
        &mut self,
        request: OidNo,
        status: OidStatus,
        value: &OidValue,
        tray: &mut Tray,
    )
        requires { MayFinish (programmed_state self.old) value.now tray.old }
        ensures { IsFinished (programmed_state self.old) request status value.now tray.old (programmed_state self.new) tray.new }
    {
        self.served.oid_complete += 1;
        tray.complete(request, status, value);
    }

    pub(crate) fn detach(&mut self)
        ensures { programmed_state self.new ≡ record (programmed_state self.old) { setup = None } }
    {
        self.setup = None;
    }
}
