//! An adapter with a transmit ring.
ghost use Rattle.std.specs.Prelude.{◌≡◌, IfOk};
ghost use Rattle.ndis_base.specs.declared.MiniportKind.TheVariants.{Ring};
ghost use Rattle.ring_adapters.specs.Rings.{new_adapter};
ghost use Rattle.ring_adapters.specs.States.{core_state};

use crate::parts::Core;
use buffer_pools::BufferList;
use driver_calls::{AttachFault, MiniportDriver, OidAnswer};
use driver_tray::Tray;
use driver_views::Served;
use journal_types::PortSetup;
use ndis_base::{ListNo, ListStatus, MiniportKind, OutOfMemory};
use stack_rules::Request;
use std::alloc::Global;

/// A ring adapter keeps the lists that it is sent in its ring, and turns a list back where the ring is full. Told to
/// transmit, it puts its oldest list onto the wire, which is its log.
#[derive(Drop)]
pub struct RingAdapter {
    core: Core,
    ghost is_ring: { core.kind ≡ Ring },
}

impl RingAdapter {
    /// An adapter that is halted and was never called: it keeps nothing, and its log is empty. It refuses just its
    /// first `refuse_first` initialisations. It takes no memory.
    pub fn make(alloc: Global, refuse_first: u64) -> Result<RingAdapter, OutOfMemory>
        ensures { IfOk result (λ a. ⟦<RingAdapter as MiniportDriver>⟧.state a ≡ new_adapter Ring) }
    {
        Ok(RingAdapter {
            core: Core::make(alloc, MiniportKind::Ring, refuse_first),
        })
    }
}

impl MiniportDriver for RingAdapter {
    ghost state = { λ a. core_state a.core };

    ghost room = { λ a. a.core.log.room };

    fn kind(&self) -> MiniportKind {
        self.core.kind
    }

    fn served(&self) -> Served {
        self.core.served
    }

    fn refusals(&self) -> u64 {
        self.core.refusals
    }

    fn held(&self) -> usize {
        self.core.ring.len()
    }

    fn make_room(&mut self, _max: usize) -> Result<(), OutOfMemory> {
        self.core.log.make_room()
    }

    fn initialize(&mut self, alloc: Global, setup: PortSetup) -> Result<(), AttachFault> {
        self.core.initialize(alloc, setup)
    }

    fn send(&mut self, list: BufferList, tray: &mut Tray) {
        self.core.send(list, tray);
    }

    fn returned(&mut self, list: BufferList, status: ListStatus, tray: &mut Tray) {
        self.core.returned(list, status, tray);
    }

    fn oid(&mut self, request: &Request, tray: &Tray) -> OidAnswer {
        self.core.oid(request, tray)
    }

    fn cancel(&mut self, id: u32, tray: &mut Tray) {
        self.core.cancel(id, tray);
    }

    fn transmit(&mut self, running: bool, tray: &mut Tray) -> Option<ListNo> {
        self.core.transmit(running, tray)
    }

    fn pause(&mut self) {}

    fn restart(&mut self) {}

    fn halt(&mut self) {
        self.core.halt();
    }

    fn logged(&self) -> usize {
        self.core.log.len()
    }

    fn log_frame(&self, list: usize, buffer: usize) -> &[u8] {
        self.core.log.frame(list, buffer)
    }
}
