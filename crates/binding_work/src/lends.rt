//! A receive is lent to a binding.
ghost use Rattle.std.specs.Prelude.{◌≡◌, ◌≤◌};
ghost use Rattle.binding_work.specs.Owns.{MayLend, Lends};

use buffer_pools::{BufferList, ListPool};
use driver_calls::ProtocolCalls;
use driver_tray::Tray;
use journal_types::How;
use ndis_base::ModuleId;

/// Lends a list to the protocol of a binding.
pub fn lend_to<P: ProtocolCalls>(
    protocol: &mut P,
    tray: &mut Tray,
    pool: &mut ListPool,
    binding: u32,
    list: &BufferList,
)
    requires may { MayLend (P.state protocol.old) list.now tray.old pool.old }
    requires room { 1 ≤ P.room protocol.old }
    ensures { Lends binding list.now (P.state protocol.old) tray.old pool.old (P.state protocol.new) tray.new pool.new }
{
    tray.set_caller(ModuleId::Binding(binding));
    tray.exchange_pool(pool);
    let span = tray.deliver(list, binding, How::Lent);
    protocol.receive_lent(list, span, tray);
    tray.exchange_pool(pool);
}
