//! A protocol that keeps what is delivered to it.
ghost use Rattle.std.specs.Prelude.{◌≡◌, [], IfOk, min};
ghost use Rattle.ndis_base.specs.declared.ProtocolKind.TheVariants.{Retain};
ghost use Rattle.binding_protocols.specs.Protocols.{protocol_of, new_protocol};

use crate::counts::not_called;
use buffer_pools::BufferList;
use driver_calls::ProtocolDriver;
use driver_log::DriverLog;
use driver_tray::Tray;
use driver_views::Served;
use frame_arena::FrameSpan;
use kept_lists::KeptLists;
use ndis_base::{
    ListNo, ListStatus, OidNo, OidStatus, OidValue, OutOfMemory, ProtocolKind, StatusName,
};
use std::alloc::Global;

/// A retain protocol logs each list that is delivered to it, and keeps it until it is told to give it back.
#[derive(Drop)]
pub struct RetainProtocol {
    is_open: bool,
    served: Served,
    kept: KeptLists,
    log: DriverLog,
}

impl RetainProtocol {
    /// A protocol that is bound to no adapter and was never called: its log is empty. It takes no memory.
    pub fn make(alloc: Global) -> Result<RetainProtocol, OutOfMemory>
        ensures { IfOk result (λ p. ⟦<RetainProtocol as ProtocolDriver>⟧.state p ≡ new_protocol Retain) }
    {
        Ok(RetainProtocol {
            is_open: false,
            served: not_called(),
            kept: KeptLists::empty(alloc),
            log: DriverLog::make(alloc),
        })
    }
}

impl ProtocolDriver for RetainProtocol {
    ghost state = { λ p. protocol_of Retain p.is_open p.kept.lists p.served p.log };

    ghost room = { λ p. min p.log.room p.kept.room };

    fn kind(&self) -> ProtocolKind {
        ProtocolKind::Retain
    }

    fn served(&self) -> Served {
        self.served
    }

    fn held(&self) -> usize {
        self.kept.len()
    }

    fn make_room(&mut self, _max: usize) -> Result<(), OutOfMemory> {
        self.log.make_room()?;
        self.kept.make_room()
    }

    fn open(&mut self, _alloc: Global, _pool: usize, _vlans: &[u16]) -> Result<(), OutOfMemory> {
        self.is_open = true;
        Ok(())
    }

    fn sent(&mut self, _list: &BufferList, _status: ListStatus) {
        self.served.send_complete += 1;
    }

    #[tactic(auto, using(crate::proofs::Received::received_kept))]
    fn receive(&mut self, list: BufferList, _span: FrameSpan, tray: &mut Tray) {
        self.served.receive += 1;
        self.log.push(&list);
        tray.keep_note(list.number());
        self.kept.push(list);
    }

    fn receive_lent(&mut self, list: &BufferList, _span: FrameSpan, _tray: &mut Tray) {
        self.served.receive_lent += 1;
        self.log.push(list);
    }

    fn status(&mut self, _name: StatusName) {
        self.served.status += 1;
    }

    fn oid_complete(&mut self, _request: OidNo, _status: OidStatus, _value: &OidValue) {
        self.served.oid_complete += 1;
    }

    fn give_back(&mut self, list: ListNo, tray: &mut Tray) -> bool {
        match self.kept.take(list.0) {
            Some(kept) => {
                tray.pass_back(kept, ListStatus::Success);
                true
            }
            None => false,
        }
    }

    fn tick(&mut self, tray: &mut Tray) {
        self.kept.pass_back(tray);
    }

    fn pause(&mut self) {}

    fn restart(&mut self) {}

    fn close(&mut self) {
        self.is_open = false;
    }

    fn logged(&self) -> usize {
        self.log.len()
    }

    fn log_frame(&self, list: usize, buffer: usize) -> &[u8] {
        self.log.frame(list, buffer)
    }
}
