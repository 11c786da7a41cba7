//! A driver gives away what it keeps ready, called with its pool.
ghost use Rattle.std.specs.Prelude.{◌≡◌, [], OnOk};
ghost use Rattle.ndis_base.specs.declared.ModuleId.TheVariants.{Filter, Binding};
ghost use Rattle.driver_calls.specs.Filters as filters;
ghost use Rattle.driver_calls.specs.Filters.{MayGiveAll};
ghost use Rattle.driver_calls.specs.Protocols as protocols;
ghost use Rattle.driver_calls.specs.Rooms.{HasRoomForAll};
ghost use Rattle.drain_work.specs.Drains.{IsRoomed, IsReadyFor, Ticks};

use buffer_pools::ListPool;
use driver_calls::{FilterCalls, ProtocolCalls};
use driver_tray::Tray;
use flat_journal::Room;
use ndis_base::{ModuleId, OutOfMemory};

const FAR: usize = 1 << 60;

/// Makes room for a module that keeps so many lists to give all away. After want of memory there is at
/// least as much as before.
pub fn make_room(tray: &mut Tray, kept: usize) -> Result<(), OutOfMemory>
    ensures tray { IsRoomed tray.old tray.new }
    ensures ready { OnOk result (IsReadyFor kept tray.new) }
{
    if kept >= FAR {
        return Err(OutOfMemory);
    }
    tray.make_room(
        Room {
            turns: 1,
            rows: 2 * kept,
            ..Room::none()
        },
        kept,
    )?;
    Ok(())
}

/// A protocol gives away what it keeps ready, if it retains lists. It answers whether it gave any.
pub fn tick_protocol<P: ProtocolCalls>(
    protocol: &mut P,
    tray: &mut Tray,
    pool: &mut ListPool,
    binding: u32,
) -> bool
    requires { HasRoomForAll (P.state protocol.old).kept tray.old }
    ensures { Ticks (Binding binding) (λ t left. protocols.IsDrained (P.state protocol.old) t (P.state protocol.new) left) tray.old pool.old result tray.new pool.new }
{
    tray.set_caller(ModuleId::Binding(binding));
    tray.exchange_pool(pool);
    protocol.tick(tray);
    tray.exchange_pool(pool);
    tray.first().is_some()
}

/// A filter gives away what it keeps ready, if it is a hold filter. It answers whether it gave any.
pub fn tick_filter<F: FilterCalls>(
    filter: &mut F,
    tray: &mut Tray,
    pool: &mut ListPool,
    f: u64,
) -> bool
    requires { MayGiveAll (F.state filter.old) tray.old }
    ensures { Ticks (Filter f) (λ t left. filters.IsDrained (F.state filter.old) t (F.state filter.new) left) tray.old pool.old result tray.new pool.new }
{
    tray.set_caller(ModuleId::Filter(f));
    tray.exchange_pool(pool);
    filter.tick(tray);
    tray.exchange_pool(pool);
    tray.first().is_some()
}
