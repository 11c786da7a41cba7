//! The drivers of a stack are set up.
ghost use Rattle.std.specs.Prelude.{◌≡◌, ◌≤◌, ◌<◌, ◌^◌, ◌++◌, [], OnOk, OnErr, IfErr, All, length, map, take, drop};
ghost use Rattle.driver_calls.specs.declared.faults.AttachFault.TheVariants.{Refused, Memory};
ghost use Rattle.driver_calls.specs.Miniports.{MayInitialize};
ghost use Rattle.driver_calls.specs.Protocols.{MayOpen};
ghost use Rattle.setup_work.specs.SetUp.{opened, closed, AreSetUp, HasRefused, AreSame};

use crate::vlans::vlans_of;
use driver_calls::{AttachFault, MiniportCalls, ProtocolCalls};
use driver_tray::Tray;
use ndis_base::{ModuleId, OutOfMemory};
use std::alloc::Global;

/// Opens the protocol of a binding: the lists of its pool, and the VLANs of the virtual miniports above it, in
/// rising order.
fn open_binding<P: ProtocolCalls>(
    protocol: &mut P,
    tray: &Tray,
    alloc: Global,
    binding: u32,
) -> Result<(), OutOfMemory>
    requires { MayOpen (P.state protocol.old) }
    ensures opened { OnOk result (P.state protocol.new ≡ opened (P.state protocol.old)) }
    ensures memory { OnErr result (P.state protocol.new ≡ P.state protocol.old) }
{
    let vlans = vlans_of(alloc, tray.head(), binding)?;
    let pool = tray.pool_of(ModuleId::Binding(binding));
    protocol.open(alloc, pool, vlans.as_slice())
}

fn close_protocol<P: ProtocolCalls>(protocol: &mut P)
    requires { (P.state protocol.old).kept ≡ [] }
    ensures { P.state protocol.new ≡ closed (P.state protocol.old) }
{
    protocol.close();
}

/// Opens the protocols of the bindings from one on, in rising order (WDK, "Binding to an Adapter"). Where one of them
/// finds no memory, those before it are closed again.
fn open_from<P: ProtocolCalls>(
    protocols: &mut Vec<P>,
    tray: &Tray,
    alloc: Global,
    from: u32,
) -> Result<(), OutOfMemory>
    requires few { length protocols.old.items < 2 ^ 32 }
    requires within { from ≤ length protocols.old.items }
    requires may { All MayOpen (drop from (map P.state protocols.old.items)) }
    ensures opened { OnOk result (map P.state protocols.new.items ≡ take from (map P.state protocols.old.items) ++ map opened (drop from (map P.state protocols.old.items))) }
    ensures memory { OnErr result (map P.state protocols.new.items ≡ map P.state protocols.old.items) }
{
    let at = from as usize;
    if at == protocols.len() {
        return Ok(());
    }
    open_binding(&mut protocols[at], tray, alloc, from)?;
    match open_from(protocols, tray, alloc, from + 1) {
        Ok(()) => Ok(()),
        Err(fault) => {
            close_protocol(&mut protocols[at]);
            Err(fault)
        }
    }
}

/// Sets up the miniport and then the protocols (WDK, "Initializing a Miniport Driver", "Binding to an Adapter"). Where
/// one of them finds no memory, those before it are closed and halted again.
pub fn set_up<M: MiniportCalls, P: ProtocolCalls>(
    miniport: &mut M,
    protocols: &mut Vec<P>,
    tray: &Tray,
    alloc: Global,
) -> Result<(), AttachFault>
    requires miniport { MayInitialize (M.state miniport.old) }
    requires protocols { All MayOpen (map P.state protocols.old.items) }
    requires few { length protocols.old.items < 2 ^ 32 }
    ensures up { OnOk result (AreSetUp tray.now.net.head.port (M.state miniport.old) (map P.state protocols.old.items) (M.state miniport.new) (map P.state protocols.new.items)) }
    ensures refused { IfErr result (λ fault. fault ≡ Refused → HasRefused (M.state miniport.old) (map P.state protocols.old.items) (M.state miniport.new) (map P.state protocols.new.items)) }
    ensures memory { IfErr result (λ fault. fault ≡ Memory → AreSame (M.state miniport.old) (map P.state protocols.old.items) (M.state miniport.new) (map P.state protocols.new.items)) }
{
    miniport.initialize(alloc, tray.head().port)?;
    match open_from(protocols, tray, alloc, 0) {
        Ok(()) => Ok(()),
        Err(_fault) => {
            miniport.halt();
            Err(AttachFault::Memory)
        }
    }
}
