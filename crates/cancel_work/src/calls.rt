//! A driver turns back the sends that it keeps ready under an identifier, called with its pool.
ghost use Rattle.std.specs.Prelude.{◌≡◌, true};
ghost use Rattle.ndis_base.specs.declared.ModuleId.TheVariants.{Filter};
ghost use Rattle.stack_rules.specs.Tests.{is_hold};
ghost use Rattle.driver_calls.specs.Filters.{MayGiveAll};
ghost use Rattle.driver_calls.specs.Miniports.{MayCancel};
ghost use Rattle.cancel_work.specs.Cancels.{FilterTurns, MiniportTurns};

use buffer_pools::ListPool;
use driver_calls::{FilterCalls, MiniportCalls};
use driver_tray::Tray;
use ndis_base::ModuleId;

/// A hold filter turns its sends back. It answers how many they were.
pub fn cancel_by_filter<F: FilterCalls>(
    filter: &mut F,
    tray: &mut Tray,
    pool: &mut ListPool,
    f: u64,
    id: u32,
) -> usize
    requires may { MayGiveAll (F.state filter.old) tray.old }
    requires hold { is_hold (F.state filter.old).kind ≡ true }
    ensures { FilterTurns f id (F.state filter.old) tray.old pool.old result (F.state filter.new) tray.new pool.new }
{
    let kept = filter.held();
    tray.set_caller(ModuleId::Filter(f));
    tray.exchange_pool(pool);
    filter.cancel(id, tray);
    tray.exchange_pool(pool);
    kept - filter.held()
}

/// The miniport turns its sends back. It answers how many they were.
pub fn cancel_by_miniport<M: MiniportCalls>(
    miniport: &mut M,
    tray: &mut Tray,
    pool: &mut ListPool,
    id: u32,
) -> usize
    requires { MayCancel (M.state miniport.old) tray.old }
    ensures { MiniportTurns id (M.state miniport.old) tray.old pool.old result (M.state miniport.new) tray.new pool.new }
{
    let kept = miniport.held();
    tray.set_caller(ModuleId::Miniport);
    tray.exchange_pool(pool);
    miniport.cancel(id, tray);
    tray.exchange_pool(pool);
    kept - miniport.held()
}
