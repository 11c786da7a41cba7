//! What a book calls of a protocol driver.
ghost use Rattle.std.specs.Prelude.{◌≡◌, ℕ, ◌≤◌, ◌<◌, [], true, false, OnOk, OnErr, length, slice_index_or};
ghost use Rattle.promise_rules.specs.declared.Called.TheVariants as called;
ghost use Rattle.driver_views.specs.States.{ProtocolState};
ghost use Rattle.driver_calls.specs.Rooms.{CanCount, HasRoomFor, HasRoomForAll};
ghost use Rattle.driver_calls.specs.Protocols.{MayOpen, IsSentHome, MayReceive, IsReceived, IsLent, IsGivenBack, IsDrained, HearsStatus, HearsAnswer};

use buffer_pools::BufferList;
use driver_tray::Tray;
use driver_views::Served;
use frame_arena::FrameSpan;
use ndis_base::{
    ListNo, ListStatus, OidNo, OidStatus, OidValue, OutOfMemory, ProtocolKind, StatusName,
};
use std::alloc::Global;

/// A protocol driver (WDK, "NDIS Protocol Drivers"), as its author writes it. Its log is a list of lists
/// of frames, one for each delivery.
pub trait ProtocolDriver: Send + Drop {
    /// What contracts see of it.
    ghost state: { Self → ProtocolState };

    /// For how many more lists that it keeps, and entries of its log, it has room.
    ghost room: { Self → ℕ };

    /// Its kind. No call changes it.
    fn kind(&self) -> ProtocolKind
        ensures { result ≡ (state self.now).kind };

    /// How often each call was made of it.
    fn served(&self) -> Served
        ensures { result ≡ (state self.now).did.served };

    /// How many lists it keeps.
    fn held(&self) -> usize
        ensures { result ≡ length (state self.now).kept };

    /// Makes room for one event whose frames have at most `max` bytes. Until then no other call but `open`
    /// takes memory.
    fn make_room(&mut self, max: usize) -> Result<(), OutOfMemory>
        ensures state { state self.new ≡ state self.old }
        ensures room { OnOk result (1 ≤ room self.new) };

    /// Binds the protocol to the adapter (WDK, "ProtocolBindAdapterEx"). `pool` is how many lists it may
    /// own, and `vlans` are those of the virtual miniports above it, in rising order.
    fn open(&mut self, alloc: Global, pool: usize, vlans: &[u16]) -> Result<(), OutOfMemory>
        requires { MayOpen (state self.old) }
        ensures opened { OnOk result (state self.new ≡ record (state self.old) { is_open = true }) }
        ensures memory { OnErr result (state self.new ≡ state self.old) };

    /// One of its sends is home (WDK, "ProtocolSendNetBufferListsComplete").
    fn sent(&mut self, list: &BufferList, status: ListStatus)
        requires { CanCount called.SendComplete (state self.old).did.served }
        ensures { IsSentHome (state self.old) (state self.new) };

    /// A list is delivered, and is its own from now (WDK, "ProtocolReceiveNetBufferLists"). The journal has
    /// its frames at `span`.
    fn receive(&mut self, list: BufferList, span: FrameSpan, tray: &mut Tray)
        requires may { MayReceive called.Receive (state self.old) list span tray.old }
        requires room { 1 ≤ room self.old }
        ensures { IsReceived (state self.old) list tray.old (state self.new) tray.new };

    /// A list is delivered that stays its lender's (WDK, "ProtocolReceiveNetBufferLists" with
    /// NDIS_RECEIVE_FLAGS_RESOURCES). The journal has its frames at `span`.
    fn receive_lent(&mut self, list: &BufferList, span: FrameSpan, tray: &mut Tray)
        requires may { MayReceive called.ReceiveLent (state self.old) list.now span tray.old }
        requires room { 1 ≤ room self.old }
        ensures { IsLent called.ReceiveLent (state self.old) list.now tray.old (state self.new) tray.new };

    /// A status is indicated to it (WDK, "ProtocolStatusEx").
    fn status(&mut self, name: StatusName)
        requires { CanCount called.Status (state self.old).did.served }
        ensures { HearsStatus (state self.old) (state self.new) };

    /// A request of its binding is done (WDK, "ProtocolOidRequestComplete").
    fn oid_complete(&mut self, request: OidNo, status: OidStatus, value: &OidValue)
        requires { CanCount called.OidComplete (state self.old).did.served }
        ensures { HearsAnswer (state self.old) (state self.new) };

    /// Passes back a list that it keeps (WDK, "NdisReturnNetBufferLists"), and answers whether it keeps it.
    fn give_back(&mut self, list: ListNo, tray: &mut Tray) -> bool
        requires { HasRoomFor 1 1 tray.old }
        ensures { IsGivenBack (state self.old) list.0 tray.old result (state self.new) tray.new };

    /// Passes back what it keeps ready, while the stack is to become empty.
    fn tick(&mut self, tray: &mut Tray)
        requires { HasRoomForAll (state self.old).kept tray.old }
        ensures { IsDrained (state self.old) tray.old (state self.new) tray.new };

    /// WDK, "ProtocolNetPnPEvent" with NetEventPause.
    fn pause(&mut self)
        ensures { state self.new ≡ state self.old };

    /// WDK, "ProtocolNetPnPEvent" with NetEventRestart.
    fn restart(&mut self)
        ensures { state self.new ≡ state self.old };

    /// WDK, "ProtocolUnbindAdapterEx".
    fn close(&mut self)
        requires { (state self.old).kept ≡ [] }
        ensures { state self.new ≡ record (state self.old) { is_open = false } };

    /// How many entries the log has.
    fn logged(&self) -> usize
        ensures { result ≡ length (state self.now).did.log };

    /// A frame of an entry of the log.
    fn log_frame(&self, list: usize, buffer: usize) -> &[u8]
        requires list { list < length (state self.now).did.log }
        requires buffer { buffer < length (slice_index_or (state self.now).did.log list []) }
        ensures { result.now ≡ slice_index_or (slice_index_or (state self.now).did.log list []) buffer [] };
}

/// A protocol driver, as a book calls it.
pub trait ProtocolCalls: Drop {
    /// What contracts see of it.
    ghost state: { Self → ProtocolState };

    /// For how many more lists that it keeps, and entries of its log, it has room.
    ghost room: { Self → ℕ };

    /// Its kind. No call changes it.
    fn kind(&self) -> ProtocolKind
        ensures { result ≡ (state self.now).kind };

    /// How often each call was made of it.
    fn served(&self) -> Served
        ensures { result ≡ (state self.now).did.served };

    /// How many lists it keeps.
    fn held(&self) -> usize
        ensures { result ≡ length (state self.now).kept };

    /// Makes room for one event whose frames have at most `max` bytes. Until then no other call but `open`
    /// takes memory.
    fn make_room(&mut self, max: usize) -> Result<(), OutOfMemory>
        ensures state { state self.new ≡ state self.old }
        ensures room { OnOk result (1 ≤ room self.new) };

    /// Binds the protocol to the adapter (WDK, "ProtocolBindAdapterEx"). `pool` is how many lists it may
    /// own, and `vlans` are those of the virtual miniports above it, in rising order.
    fn open(&mut self, alloc: Global, pool: usize, vlans: &[u16]) -> Result<(), OutOfMemory>
        requires { MayOpen (state self.old) }
        ensures opened { OnOk result (state self.new ≡ record (state self.old) { is_open = true }) }
        ensures memory { OnErr result (state self.new ≡ state self.old) };

    /// One of its sends is home (WDK, "ProtocolSendNetBufferListsComplete").
    fn sent(&mut self, list: &BufferList, status: ListStatus)
        requires { CanCount called.SendComplete (state self.old).did.served }
        ensures { IsSentHome (state self.old) (state self.new) };

    /// A list is delivered, and is its own from now (WDK, "ProtocolReceiveNetBufferLists"). The journal has
    /// its frames at `span`.
    fn receive(&mut self, list: BufferList, span: FrameSpan, tray: &mut Tray)
        requires may { MayReceive called.Receive (state self.old) list span tray.old }
        requires room { 1 ≤ room self.old }
        ensures { IsReceived (state self.old) list tray.old (state self.new) tray.new };

    /// A list is delivered that stays its lender's (WDK, "ProtocolReceiveNetBufferLists" with
    /// NDIS_RECEIVE_FLAGS_RESOURCES). The journal has its frames at `span`.
    fn receive_lent(&mut self, list: &BufferList, span: FrameSpan, tray: &mut Tray)
        requires may { MayReceive called.ReceiveLent (state self.old) list.now span tray.old }
        requires room { 1 ≤ room self.old }
        ensures { IsLent called.ReceiveLent (state self.old) list.now tray.old (state self.new) tray.new };

    /// A status is indicated to it (WDK, "ProtocolStatusEx").
    fn status(&mut self, name: StatusName)
        requires { CanCount called.Status (state self.old).did.served }
        ensures { HearsStatus (state self.old) (state self.new) };

    /// A request of its binding is done (WDK, "ProtocolOidRequestComplete").
    fn oid_complete(&mut self, request: OidNo, status: OidStatus, value: &OidValue)
        requires { CanCount called.OidComplete (state self.old).did.served }
        ensures { HearsAnswer (state self.old) (state self.new) };

    /// Passes back a list that it keeps (WDK, "NdisReturnNetBufferLists"), and answers whether it keeps it.
    fn give_back(&mut self, list: ListNo, tray: &mut Tray) -> bool
        requires { HasRoomFor 1 1 tray.old }
        ensures { IsGivenBack (state self.old) list.0 tray.old result (state self.new) tray.new };

    /// Passes back what it keeps ready, while the stack is to become empty.
    fn tick(&mut self, tray: &mut Tray)
        requires { HasRoomForAll (state self.old).kept tray.old }
        ensures { IsDrained (state self.old) tray.old (state self.new) tray.new };

    /// WDK, "ProtocolNetPnPEvent" with NetEventPause.
    fn pause(&mut self)
        ensures { state self.new ≡ state self.old };

    /// WDK, "ProtocolNetPnPEvent" with NetEventRestart.
    fn restart(&mut self)
        ensures { state self.new ≡ state self.old };

    /// WDK, "ProtocolUnbindAdapterEx".
    fn close(&mut self)
        requires { (state self.old).kept ≡ [] }
        ensures { state self.new ≡ record (state self.old) { is_open = false } };

    /// How many entries the log has.
    fn logged(&self) -> usize
        ensures { result ≡ length (state self.now).did.log };

    /// A frame of an entry of the log.
    fn log_frame(&self, list: usize, buffer: usize) -> &[u8]
        requires list { list < length (state self.now).did.log }
        requires buffer { buffer < length (slice_index_or (state self.now).did.log list []) }
        ensures { result.now ≡ slice_index_or (slice_index_or (state self.now).did.log list []) buffer [] };
}

impl ProtocolCalls for Box<dyn ProtocolDriver> {
    ghost state = { λ b. (ProtocolDriver-box b).state b.value };

    ghost room = { λ b. (ProtocolDriver-box b).room b.value };

    fn kind(&self) -> ProtocolKind {
        (**self).kind()
    }

    fn served(&self) -> Served {
        (**self).served()
    }

    fn held(&self) -> usize {
        (**self).held()
    }

    fn make_room(&mut self, max: usize) -> Result<(), OutOfMemory> {
        (**self).make_room(max)
    }

    fn open(&mut self, alloc: Global, pool: usize, vlans: &[u16]) -> Result<(), OutOfMemory> {
        (**self).open(alloc, pool, vlans)
    }

    fn sent(&mut self, list: &BufferList, status: ListStatus) {
        (**self).sent(list, status);
    }

    fn receive(&mut self, list: BufferList, span: FrameSpan, tray: &mut Tray) {
        (**self).receive(list, span, tray);
    }

    fn receive_lent(&mut self, list: &BufferList, span: FrameSpan, tray: &mut Tray) {
        (**self).receive_lent(list, span, tray);
    }

    fn status(&mut self, name: StatusName) {
        (**self).status(name);
    }

    fn oid_complete(&mut self, request: OidNo, status: OidStatus, value: &OidValue) {
        (**self).oid_complete(request, status, value);
    }

    fn give_back(&mut self, list: ListNo, tray: &mut Tray) -> bool {
        (**self).give_back(list, tray)
    }

    fn tick(&mut self, tray: &mut Tray) {
        (**self).tick(tray);
    }

    fn pause(&mut self) {
        (**self).pause();
    }

    fn restart(&mut self) {
        (**self).restart();
    }

    fn close(&mut self) {
        (**self).close();
    }

    fn logged(&self) -> usize {
        (**self).logged()
    }

    fn log_frame(&self, list: usize, buffer: usize) -> &[u8] {
        (**self).log_frame(list, buffer)
    }
}
