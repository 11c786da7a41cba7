//! The miniport is called with its pool.
ghost use Rattle.std.specs.Prelude.{◌≡◌, ◌≤◌, ◌∷◌, ◌*◌, OnOk};
ghost use Rattle.agenda_items.specs.declared.Carried.TheVariants.{List as a_list};
ghost use Rattle.journal_types.specs.declared.Handler.TheVariants as handler;
ghost use Rattle.driver_tray.specs.Tray.{given};
ghost use Rattle.driver_calls.specs.Miniports.{IsQueued, IsReturned, MayTransmit, IsTransmitted};
ghost use Rattle.miniport_work.specs.Works.{called_with, DoesWithPool, MayGive, MayGiveBack, IsRoomed, IsReady, StartsWithList};

use agenda_items::Item;
use buffer_pools::{BufferList, ListPool};
use driver_calls::MiniportCalls;
use driver_tray::Tray;
use flat_journal::Room;
use journal_types::{Handler, PassWay, Target};
use ndis_base::{ListNo, ListStatus, ModuleId, OutOfMemory};

const FAR: u64 = 1 << 60;

/// Makes all room that an event at the miniport wants. After want of memory there is at least as much as
/// before.
pub fn make_room<M: MiniportCalls>(
    miniport: &mut M,
    tray: &mut Tray,
    room: Room,
    things: usize,
) -> Result<(), OutOfMemory>
    ensures state { M.state miniport.new ≡ M.state miniport.old }
    ensures tray { IsRoomed tray.old tray.new }
    ensures driver { OnOk result (1 ≤ M.room miniport.new) }
    ensures ready { OnOk result (IsReady room things (M.state miniport.new) tray.new) }
{
    let served = miniport.served();
    if served.send >= FAR || served.returned >= FAR {
        return Err(OutOfMemory);
    }
    miniport.make_room(1518)?;
    tray.make_room(room, things)?;
    Ok(())
}

/// Takes the first list that is on its way.
pub fn take_list(tray: &mut Tray) -> (BufferList, PassWay, Target)
    requires { StartsWithList tray.old.queue }
    ensures { tray.old ≡ record tray.new { queue = a_list result.0 result.1 result.2 ∷ tray.new.queue } }
{
    match tray.dequeue() {
        Some(Item::List { list, way, to }) => (list, way, to),
        Some(Item::Status(_)) => unreachable!(),
        Some(Item::Answer(_answer)) => unreachable!(),
        None => unreachable!(),
    }
}

/// Gives a send to the miniport.
pub fn give_to<M: MiniportCalls>(
    miniport: &mut M,
    tray: &mut Tray,
    pool: &mut ListPool,
    list: BufferList,
)
    requires may { MayGive (M.state miniport.old) list tray.old }
    requires room { 1 ≤ M.room miniport.old }
    ensures { DoesWithPool (λ t left. IsQueued (M.state miniport.old) list (given t list.label.number handler.Send) (M.state miniport.new) left) tray.old pool.old tray.new pool.new }
{
    tray.set_caller(ModuleId::Miniport);
    tray.exchange_pool(pool);
    tray.give(list.number(), Handler::Send);
    miniport.send(list, tray);
    tray.exchange_pool(pool);
}

/// Gives one of its own lists back to the miniport.
pub fn give_back_to<M: MiniportCalls>(
    miniport: &mut M,
    tray: &mut Tray,
    pool: &mut ListPool,
    list: BufferList,
    status: ListStatus,
)
    requires { MayGiveBack (M.state miniport.old) list tray.old pool.old }
    ensures { DoesWithPool (λ t left. IsReturned (M.state miniport.old) list status t (M.state miniport.new) left) tray.old pool.old tray.new pool.new }
{
    tray.set_caller(ModuleId::Miniport);
    tray.exchange_pool(pool);
    miniport.returned(list, status, tray);
    tray.exchange_pool(pool);
}

/// Lets the miniport transmit.
pub fn transmit_from<M: MiniportCalls>(
    miniport: &mut M,
    tray: &mut Tray,
    pool: &mut ListPool,
    running: bool,
) -> Option<ListNo>
    requires may { MayTransmit (M.state miniport.old) (called_with tray.old pool.old) }
    requires room { 1 ≤ M.room miniport.old }
    ensures { DoesWithPool (λ t left. IsTransmitted (M.state miniport.old) running t result (M.state miniport.new) left) tray.old pool.old tray.new pool.new }
{
    tray.set_caller(ModuleId::Miniport);
    tray.exchange_pool(pool);
    let wired = miniport.transmit(running, tray);
    tray.exchange_pool(pool);
    wired
}
