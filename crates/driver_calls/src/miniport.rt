//! What a book calls of a miniport driver.
ghost use Rattle.std.specs.Prelude.{◌≡◌, ℕ, ◌≤◌, ◌<◌, [], None, Some, OnOk, IfErr, length, slice_index_or};
ghost use Rattle.driver_views.specs.States.{MiniportState};
ghost use Rattle.driver_calls.specs.declared.faults.AttachFault.TheVariants.{Refused, Memory};
ghost use Rattle.driver_calls.specs.Miniports.{MayInitialize, Refuses, MaySend, IsQueued, MayReturn, IsReturned, MayTransmit, IsTransmitted, MayCancel, IsCancelled, MayAnswer, IsAnswered};

use crate::answers::OidAnswer;
use crate::faults::AttachFault;
use buffer_pools::BufferList;
use driver_tray::Tray;
use driver_views::Served;
use journal_types::PortSetup;
use ndis_base::{ListNo, ListStatus, MiniportKind, OutOfMemory};
use stack_rules::Request;
use std::alloc::Global;

/// A miniport driver (WDK, "Writing NDIS Miniport Drivers"), as its author writes it. Its wire log is a
/// list of lists of frames.
pub trait MiniportDriver: Send + Drop {
    /// What contracts see of it.
    ghost state: { Self → MiniportState };

    /// For how many more lists that it keeps, and entries of its log, it has room.
    ghost room: { Self → ℕ };

    /// Its kind. No call changes it.
    fn kind(&self) -> MiniportKind
        ensures { result ≡ (state self.now).kind };

    /// How often each call was made of it.
    fn served(&self) -> Served
        ensures { result ≡ (state self.now).did.served };

    /// How often it refused to be initialised.
    fn refusals(&self) -> u64
        ensures { result ≡ (state self.now).refusals };

    /// How many lists it keeps.
    fn held(&self) -> usize
        ensures { result ≡ length (state self.now).kept };

    /// Makes room for one event whose frames have at most `max` bytes. Until then no other call but
    /// `initialize` takes memory.
    fn make_room(&mut self, max: usize) -> Result<(), OutOfMemory>
        ensures state { state self.new ≡ state self.old }
        ensures room { OnOk result (1 ≤ room self.new) };

    /// Sets the adapter up (WDK, "MiniportInitializeEx"). It may refuse, and counts that.
    fn initialize(&mut self, alloc: Global, setup: PortSetup) -> Result<(), AttachFault>
        requires { MayInitialize (state self.old) }
        ensures initialized { OnOk result (state self.new ≡ record (state self.old) { port = Some setup }) }
        ensures refused { IfErr result (λ fault. fault ≡ Refused → Refuses (state self.old) (state self.new)) }
        ensures memory { IfErr result (λ fault. fault ≡ Memory → state self.new ≡ state self.old) };

    /// Sends a list (WDK, "MiniportSendNetBufferLists").
    fn send(&mut self, list: BufferList, tray: &mut Tray)
        requires may { MaySend (state self.old) list tray.old }
        requires room { 1 ≤ room self.old }
        ensures { IsQueued (state self.old) list tray.old (state self.new) tray.new };

    /// One of its own lists is returned (WDK, "MiniportReturnNetBufferLists").
    fn returned(&mut self, list: BufferList, status: ListStatus, tray: &mut Tray)
        requires { MayReturn (state self.old) list tray.old }
        ensures { IsReturned (state self.old) list status tray.old (state self.new) tray.new };

    /// A request is given to it (WDK, "MiniportOidRequest"): its answer, by the table of OIDs.
    fn oid(&mut self, request: &Request, tray: &Tray) -> OidAnswer
        requires may { MayAnswer (state self.old) }
        ensures { IsAnswered (state self.old) request.now tray.now result (state self.new) };

    /// Turns back the sends that it keeps ready under an identifier (WDK, "MiniportCancelSend").
    fn cancel(&mut self, id: u32, tray: &mut Tray)
        requires { MayCancel (state self.old) tray.old }
        ensures { IsCancelled (state self.old) id tray.old (state self.new) tray.new };

    /// Puts the oldest list of the ring onto the wire. `running` tells whether the stack runs. None where
    /// the ring is empty, and of a virtual miniport.
    fn transmit(&mut self, running: bool, tray: &mut Tray) -> Option<ListNo>
        requires may { MayTransmit (state self.old) tray.old }
        requires room { 1 ≤ room self.old }
        ensures { IsTransmitted (state self.old) running tray.old result (state self.new) tray.new };

    /// WDK, "MiniportPause".
    fn pause(&mut self)
        ensures { state self.new ≡ state self.old };

    /// WDK, "MiniportRestart".
    fn restart(&mut self)
        ensures { state self.new ≡ state self.old };

    /// WDK, "MiniportHaltEx".
    fn halt(&mut self)
        requires { (state self.old).kept ≡ [] }
        ensures { state self.new ≡ record (state self.old) { port = None } };

    /// How many entries the log has.
    fn logged(&self) -> usize
        ensures { result ≡ length (state self.now).did.log };

    /// A frame of an entry of the log.
    fn log_frame(&self, list: usize, buffer: usize) -> &[u8]
        requires list { list < length (state self.now).did.log }
        requires buffer { buffer < length (slice_index_or (state self.now).did.log list []) }
        ensures { result.now ≡ slice_index_or (slice_index_or (state self.now).did.log list []) buffer [] };
}

/// A miniport driver, as a book calls it.
pub trait MiniportCalls: Drop {
    /// What contracts see of it.
    ghost state: { Self → MiniportState };

    /// For how many more lists that it keeps, and entries of its log, it has room.
    ghost room: { Self → ℕ };

    /// Its kind. No call changes it.
    fn kind(&self) -> MiniportKind
        ensures { result ≡ (state self.now).kind };

    /// How often each call was made of it.
    fn served(&self) -> Served
        ensures { result ≡ (state self.now).did.served };

    /// How often it refused to be initialised.
    fn refusals(&self) -> u64
        ensures { result ≡ (state self.now).refusals };

    /// How many lists it keeps.
    fn held(&self) -> usize
        ensures { result ≡ length (state self.now).kept };

    /// Makes room for one event whose frames have at most `max` bytes. Until then no other call but
    /// `initialize` takes memory.
    fn make_room(&mut self, max: usize) -> Result<(), OutOfMemory>
        ensures state { state self.new ≡ state self.old }
        ensures room { OnOk result (1 ≤ room self.new) };

    /// Sets the adapter up (WDK, "MiniportInitializeEx"). It may refuse, and counts that.
    fn initialize(&mut self, alloc: Global, setup: PortSetup) -> Result<(), AttachFault>
        requires { MayInitialize (state self.old) }
        ensures initialized { OnOk result (state self.new ≡ record (state self.old) { port = Some setup }) }
        ensures refused { IfErr result (λ fault. fault ≡ Refused → Refuses (state self.old) (state self.new)) }
        ensures memory { IfErr result (λ fault. fault ≡ Memory → state self.new ≡ state self.old) };

    /// Sends a list (WDK, "MiniportSendNetBufferLists").
    fn send(&mut self, list: BufferList, tray: &mut Tray)
        requires may { MaySend (state self.old) list tray.old }
        requires room { 1 ≤ room self.old }
        ensures { IsQueued (state self.old) list tray.old (state self.new) tray.new };

    /// One of its own lists is returned (WDK, "MiniportReturnNetBufferLists").
    fn returned(&mut self, list: BufferList, status: ListStatus, tray: &mut Tray)
        requires { MayReturn (state self.old) list tray.old }
        ensures { IsReturned (state self.old) list status tray.old (state self.new) tray.new };

    /// A request is given to it (WDK, "MiniportOidRequest"): its answer, by the table of OIDs.
    fn oid(&mut self, request: &Request, tray: &Tray) -> OidAnswer
        requires may { MayAnswer (state self.old) }
        ensures { IsAnswered (state self.old) request.now tray.now result (state self.new) };

    /// Turns back the sends that it keeps ready under an identifier (WDK, "MiniportCancelSend").
    fn cancel(&mut self, id: u32, tray: &mut Tray)
        requires { MayCancel (state self.old) tray.old }
        ensures { IsCancelled (state self.old) id tray.old (state self.new) tray.new };

    /// Puts the oldest list of the ring onto the wire. `running` tells whether the stack runs. None where
    /// the ring is empty, and of a virtual miniport.
    fn transmit(&mut self, running: bool, tray: &mut Tray) -> Option<ListNo>
        requires may { MayTransmit (state self.old) tray.old }
        requires room { 1 ≤ room self.old }
        ensures { IsTransmitted (state self.old) running tray.old result (state self.new) tray.new };

    /// WDK, "MiniportPause".
    fn pause(&mut self)
        ensures { state self.new ≡ state self.old };

    /// WDK, "MiniportRestart".
    fn restart(&mut self)
        ensures { state self.new ≡ state self.old };

    /// WDK, "MiniportHaltEx".
    fn halt(&mut self)
        requires { (state self.old).kept ≡ [] }
        ensures { state self.new ≡ record (state self.old) { port = None } };

    /// How many entries the log has.
    fn logged(&self) -> usize
        ensures { result ≡ length (state self.now).did.log };

    /// A frame of an entry of the log.
    fn log_frame(&self, list: usize, buffer: usize) -> &[u8]
        requires list { list < length (state self.now).did.log }
        requires buffer { buffer < length (slice_index_or (state self.now).did.log list []) }
        ensures { result.now ≡ slice_index_or (slice_index_or (state self.now).did.log list []) buffer [] };
}

impl MiniportCalls for Box<dyn MiniportDriver> {
    ghost state = { λ b. (MiniportDriver-box b).state b.value };

    ghost room = { λ b. (MiniportDriver-box b).room b.value };

    fn kind(&self) -> MiniportKind {
        (**self).kind()
    }

    fn served(&self) -> Served {
        (**self).served()
    }

    fn refusals(&self) -> u64 {
        (**self).refusals()
    }

    fn held(&self) -> usize {
        (**self).held()
    }

    fn make_room(&mut self, max: usize) -> Result<(), OutOfMemory> {
        (**self).make_room(max)
    }

    fn initialize(&mut self, alloc: Global, setup: PortSetup) -> Result<(), AttachFault> {
        (**self).initialize(alloc, setup)
    }

    fn send(&mut self, list: BufferList, tray: &mut Tray) {
        (**self).send(list, tray);
    }

    fn returned(&mut self, list: BufferList, status: ListStatus, tray: &mut Tray) {
        (**self).returned(list, status, tray);
    }

    fn oid(&mut self, request: &Request, tray: &Tray) -> OidAnswer {
        (**self).oid(request, tray)
    }

    fn cancel(&mut self, id: u32, tray: &mut Tray) {
        (**self).cancel(id, tray);
    }

    fn transmit(&mut self, running: bool, tray: &mut Tray) -> Option<ListNo> {
        (**self).transmit(running, tray)
    }

    fn pause(&mut self) {
        (**self).pause();
    }

    fn restart(&mut self) {
        (**self).restart();
    }

    fn halt(&mut self) {
        (**self).halt();
    }

    fn logged(&self) -> usize {
        (**self).logged()
    }

    fn log_frame(&self, list: usize, buffer: usize) -> &[u8] {
        (**self).log_frame(list, buffer)
    }
}
