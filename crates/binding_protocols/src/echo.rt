//! A protocol that sends what is delivered to it.
ghost use Rattle.std.specs.Prelude.{◌≡◌, ◌+◌, ◌≤◌, ◌<◌, ◌^◌, [], IfOk};
ghost use Rattle.frame_arena.specs.Spans.{frames_at, SpanWithin};
ghost use Rattle.hand_lemmas.specs.Frames.{AreSized};
ghost use Rattle.ndis_base.specs.declared.ProtocolKind.TheVariants.{Echo};
ghost use Rattle.binding_protocols.specs.Protocols.{protocol_of, new_protocol, Answers};

use crate::counts::not_called;
use buffer_pools::BufferList;
use driver_calls::ProtocolDriver;
use driver_log::DriverLog;
use driver_tray::Tray;
use driver_views::Served;
use frame_arena::FrameSpan;
use ndis_base::{
    Direction, ListNo, ListStatus, OidNo, OidStatus, OidValue, OutOfMemory, ProtocolKind,
    StatusName,
};
use std::alloc::Global;

/// Sends the frames of a list again, where the pool has a list for them.
fn echo(list: &BufferList, span: FrameSpan, tray: &mut Tray)
    requires sized { AreSized list.now.frames }
    requires pool { tray.old.pool.bytes ≡ 1518 }
    requires within { SpanWithin tray.old.payloads.frames span }
    requires shown { frames_at tray.old.payloads.frames span ≡ list.now.frames }
    requires room { 2 ≤ tray.old.room.rows }
    requires slack { 1 ≤ tray.old.slack }
    requires low { tray.old.net.next.list < 2 ^ 60 }
    requires received { tray.old.net.port.received < 2 ^ 60 }
    ensures answers { Answers list.now tray.old tray.new }
    ensures rows { tray.old.room.rows ≤ tray.new.room.rows + 2 }
    ensures slack { tray.old.slack ≤ tray.new.slack + 1 }
{
    match tray.start_copy(Direction::Down, list, span) {
        Ok(_) => {}
        Err(_) => {}
    }
}

/// An echo protocol logs each list that is delivered to it, sends a list of its own with the same frames where
/// its pool has one, and returns the list.
#[derive(Drop)]
pub struct EchoProtocol {
    is_open: bool,
    served: Served,
    log: DriverLog,
}

impl EchoProtocol {
    /// A protocol that is bound to no adapter and was never called: its log is empty. It takes no memory.
    pub fn make(alloc: Global) -> Result<EchoProtocol, OutOfMemory>
        ensures { IfOk result (λ p. ⟦<EchoProtocol as ProtocolDriver>⟧.state p ≡ new_protocol Echo) }
    {
        Ok(EchoProtocol {
            is_open: false,
            served: not_called(),
            log: DriverLog::make(alloc),
        })
    }
}

impl ProtocolDriver for EchoProtocol {
    ghost state = { λ p. protocol_of Echo p.is_open [] p.served p.log };

    ghost room = { λ p. p.log.room };

    fn kind(&self) -> ProtocolKind {
        ProtocolKind::Echo
    }

    fn served(&self) -> Served {
        self.served
    }

    fn held(&self) -> usize {
        0
    }

    fn make_room(&mut self, _max: usize) -> Result<(), OutOfMemory> {
        self.log.make_room()
    }

    fn open(&mut self, _alloc: Global, _pool: usize, _vlans: &[u16]) -> Result<(), OutOfMemory> {
        self.is_open = true;
        Ok(())
    }

    fn sent(&mut self, _list: &BufferList, _status: ListStatus) {
        self.served.send_complete += 1;
    }

    #[tactic(auto, using(crate::proofs::Received::received_echo))]
    fn receive(&mut self, list: BufferList, span: FrameSpan, tray: &mut Tray) {
        self.served.receive += 1;
        self.log.push(&list);
        echo(&list, span, tray);
        tray.pass_back(list, ListStatus::Success);
    }

    #[tactic(auto, using(crate::proofs::Received::echoes_of))]
    fn receive_lent(&mut self, list: &BufferList, span: FrameSpan, tray: &mut Tray) {
        self.served.receive_lent += 1;
        self.log.push(list);
        echo(list, span, tray);
    }

    fn status(&mut self, _name: StatusName) {
        self.served.status += 1;
    }

    fn oid_complete(&mut self, _request: OidNo, _status: OidStatus, _value: &OidValue) {
        self.served.oid_complete += 1;
    }

    fn give_back(&mut self, _list: ListNo, _tray: &mut Tray) -> bool {
        false
    }

    fn tick(&mut self, _tray: &mut Tray) {}

    fn pause(&mut self) {}

    fn restart(&mut self) {}

    fn close(&mut self) {
        self.is_open = false;
    }

    fn logged(&self) -> usize {
        self.log.len()
    }

    fn log_frame(&self, list: usize, buffer: usize) -> &[u8] {
        self.log.frame(list, buffer)
    }
}
