//! What an adapter with a ring is made of.
ghost use Rattle.std.specs.Prelude.{◌≡◌, false};
ghost use Rattle.std.specs.Option.{ForSome};
ghost use Rattle.stack_rules.specs.Tests.{is_virtual};
ghost use Rattle.ring_adapters.specs.Rings.{IsRing};

use driver_log::DriverLog;
use driver_views::Served;
use journal_types::PortSetup;
use kept_lists::KeptLists;
use ndis_base::MiniportKind;

/// An adapter of a kind that isn't virtual.
#[derive(Drop)]
pub struct Core {
    pub(crate) kind: MiniportKind,
    pub(crate) to_refuse: u64,
    pub(crate) port: Option<PortSetup>,
    pub(crate) served: Served,
    pub(crate) refusals: u64,
    pub(crate) ring: KeptLists,
    pub(crate) log: DriverLog,
    ghost sized: { ForSome port (IsRing ring) },
    ghost real: { is_virtual kind ≡ false },
}
