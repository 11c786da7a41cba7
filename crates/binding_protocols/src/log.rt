//! A protocol that logs what is delivered to it.
ghost use Rattle.std.specs.Prelude.{◌≡◌, [], IfOk};
ghost use Rattle.ndis_base.specs.declared.ProtocolKind.TheVariants.{Log};
ghost use Rattle.binding_protocols.specs.Protocols.{protocol_of, new_protocol};

use crate::counts::not_called;
use buffer_pools::BufferList;
use driver_calls::ProtocolDriver;
use driver_log::DriverLog;
use driver_tray::Tray;
use driver_views::Served;
use frame_arena::FrameSpan;
use ndis_base::{
    ListNo, ListStatus, OidNo, OidStatus, OidValue, OutOfMemory, ProtocolKind, StatusName,
};
use std::alloc::Global;

/// A log protocol logs each list that is delivered to it and returns it at once.
#[derive(Drop)]
pub struct LogProtocol {
    is_open: bool,
    served: Served,
    log: DriverLog,
}

impl LogProtocol {
    /// A protocol that is bound to no adapter and was never called: its log is empty. It takes no memory.
    pub fn make(alloc: Global) -> Result<LogProtocol, OutOfMemory>
        ensures { IfOk result (λ p. ⟦<LogProtocol as ProtocolDriver>⟧.state p ≡ new_protocol Log) }
    {
        Ok(LogProtocol {
            is_open: false,
            served: not_called(),
            log: DriverLog::make(alloc),
        })
    }
}

impl ProtocolDriver for LogProtocol {
    ghost state = { λ p. protocol_of Log p.is_open [] p.served p.log };

    ghost room = { λ p. p.log.room };

    fn kind(&self) -> ProtocolKind {
        ProtocolKind::Log
    }

    fn served(&self) -> Served {
        self.served
    }

    fn held(&self) -> usize {
        0
    }

    fn make_room(&mut self, _max: usize) -> Result<(), OutOfMemory> {
        self.log.make_room()
    }

    fn open(&mut self, _alloc: Global, _pool: usize, _vlans: &[u16]) -> Result<(), OutOfMemory> {
        self.is_open = true;
        Ok(())
    }

    fn sent(&mut self, _list: &BufferList, _status: ListStatus) {
        self.served.send_complete += 1;
    }

    #[tactic(auto, using(crate::proofs::Received::received_plain))]
    fn receive(&mut self, list: BufferList, _span: FrameSpan, tray: &mut Tray) {
        self.served.receive += 1;
        self.log.push(&list);
        tray.pass_back(list, ListStatus::Success);
    }

    fn receive_lent(&mut self, list: &BufferList, _span: FrameSpan, _tray: &mut Tray) {
        self.served.receive_lent += 1;
        self.log.push(list);
    }

    fn status(&mut self, _name: StatusName) {
        self.served.status += 1;
    }

    fn oid_complete(&mut self, _request: OidNo, _status: OidStatus, _value: &OidValue) {
        self.served.oid_complete += 1;
    }

    fn give_back(&mut self, _list: ListNo, _tray: &mut Tray) -> bool {
        false
    }

    fn tick(&mut self, _tray: &mut Tray) {}

    fn pause(&mut self) {}

    fn restart(&mut self) {}

    fn close(&mut self) {
        self.is_open = false;
    }

    fn logged(&self) -> usize {
        self.log.len()
    }

    fn log_frame(&self, list: usize, buffer: usize) -> &[u8] {
        self.log.frame(list, buffer)
    }
}
