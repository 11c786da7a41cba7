//! Filters without rules that keep no list: every list passes them.
ghost use Rattle.std.specs.Prelude.{◌≡◌, [], false, None, Some, OnOk, OnErr, IfErr};
ghost use Rattle.ndis_base.specs.declared.Direction.TheVariants as direction;
ghost use Rattle.promise_rules.specs.declared.Called.TheVariants as called;
ghost use Rattle.stack_rules.specs.Tests.{is_hold};
ghost use Rattle.driver_calls.specs.declared.faults.AttachFault.TheVariants.{Refused, Memory};
ghost use Rattle.driver_calls.specs.declared.fates.LentFate.TheVariants.{Left};
ghost use Rattle.driver_calls.specs.Rooms.{CanCount};
ghost use Rattle.driver_views.specs.States.{called_for};
ghost use Rattle.driver_calls.specs.Filters.{MayHandle, IsHandled, MayComplete, IsCompleted, MaySee, IsSeenBy, MayForward, IsForwarded, MayFinish, IsFinished, Refuses};
ghost use Rattle.frame_filters.specs.Filters.{new_filter};
ghost use Rattle.frame_filters.specs.States.{plain_state};

use crate::counts::{is_empty, not_called, risen};
use crate::homes::pass_home;
use crate::parts::Plain;
use buffer_pools::BufferList;
use driver_calls::{AttachFault, LentFate};
use driver_tray::Tray;
use journal_types::Setup;
use ndis_base::{FilterKind, ListStatus, OidNo, OidStatus, OidValue, StatusName, StatusNo};
use stack_rules::Request;

impl Plain {
    /// On the shelf, and never called.
    pub(crate) fn make(kind: FilterKind) -> Plain
        requires { is_hold kind ≡ false }
        ensures { plain_state result ≡ new_filter kind }
    {
        Plain {
            kind,
            setup: None,
            served: not_called(),
            refusals: 0,
        }
    }

    /// Attaches it, where it is set up without rules.
    pub(crate) fn attach(&mut self, setup: Setup) -> Result<(), AttachFault>
        ensures attached { OnOk result (plain_state self.new ≡ record (plain_state self.old) { setup = Some setup }) }
        ensures refused { IfErr result (λ fault. fault ≡ Refused) }
        ensures refuses { OnErr result (Refuses (plain_state self.old) (plain_state self.new)) }
    {
        if is_empty(&setup) {
            self.setup = Some(setup);
            Ok(())
        } else {
            self.refusals = risen(self.refusals);
            Err(AttachFault::Refused)
        }
    }

    #[tactic(auto, using(crate::proofs::Passing::passes_all))]
    pub(crate) fn send(&mut self, list: BufferList, tray: &mut Tray)
        requires { MayHandle called.Send direction.Down (plain_state self.old) list tray.old }
        ensures { IsHandled called.Send (plain_state self.old) list tray.old (plain_state self.new) tray.new }
    {
        self.served.send += 1;
        tray.forward(list);
    }

    #[tactic(auto, using(crate::proofs::Homeward::completes_as))]
    pub(crate) fn send_complete(&mut self, list: BufferList, status: ListStatus, tray: &mut Tray)
        requires { MayComplete called.SendComplete direction.Down (plain_state self.old) list tray.old }
        ensures { IsCompleted called.SendComplete (plain_state self.old) list status tray.old (plain_state self.new) tray.new }
    {
        self.served.send_complete += 1;
        pass_home(list, status, tray);
    }

    #[tactic(auto, using(crate::proofs::Passing::passes_all))]
    pub(crate) fn receive(&mut self, list: BufferList, tray: &mut Tray)
        requires { MayHandle called.Receive direction.Up (plain_state self.old) list tray.old }
        ensures { IsHandled called.Receive (plain_state self.old) list tray.old (plain_state self.new) tray.new }
    {
        self.served.receive += 1;
        tray.forward(list);
    }

    #[tactic(auto, using(crate::proofs::Homeward::completes_as))]
    pub(crate) fn returned(&mut self, list: BufferList, status: ListStatus, tray: &mut Tray)
        requires { MayComplete called.Returned direction.Up (plain_state self.old) list tray.old }
        ensures { IsCompleted called.Returned (plain_state self.old) list status tray.old (plain_state self.new) tray.new }
    {
        self.served.returned += 1;
        pass_home(list, status, tray);
    }

    /// Counts a list that is lent to it, and leaves it as it is.
    pub(crate) fn receive_lent(&mut self) -> LentFate
        requires { CanCount called.ReceiveLent self.old.served }
        ensures counted { plain_state self.new ≡ record (plain_state self.old) { did = called_for called.ReceiveLent (plain_state self.old).did } }
        ensures leaves { result ≡ Left }
    {
        self.served.receive_lent += 1;
        LentFate::Left
    }

    /// Counts a status, and indicates it further up.
    pub(crate) fn status(&mut self, number: StatusNo, name: StatusName, tray: &mut Tray)
        requires { MaySee (plain_state self.old) tray.old }
        ensures { IsSeenBy (plain_state self.old) number name tray.old (plain_state self.new) tray.new }
    {
        self.served.status += 1;
        tray.indicate_status(number, name);
    }

    /// Counts a request that is given to it, and forwards it by a clone.
    pub(crate) fn oid(&mut self, request: &Request, tray: &mut Tray)
        requires { MayForward (plain_state self.old) request.now tray.old }
        ensures { IsForwarded (plain_state self.old) request.now tray.old (plain_state self.new) tray.new }
    {
        self.served.oid += 1;
        tray.forward_clone(request);
    }

    /// Counts a clone that is done, and completes the request with the clone's status and value.
    pub(crate) fn oid_complete(
        &mut self,
        request: OidNo,
        status: OidStatus,
        value: &OidValue,
        tray: &mut Tray,
    )
        requires { MayFinish (plain_state self.old) value.now tray.old }
        ensures { IsFinished (plain_state self.old) request status value.now tray.old (plain_state self.new) tray.new }
    {
        self.served.oid_complete += 1;
        tray.complete(request, status, value);
    }

    pub(crate) fn detach(&mut self)
        ensures { plain_state self.new ≡ record (plain_state self.old) { setup = None } }
    {
        self.setup = None;
    }
}
