//! What a classify filter is made of.
ghost use Rattle.std.specs.Prelude.{◌≡◌, true};
ghost use Rattle.std.specs.Option.{ForSome};
ghost use Rattle.classify_filters.specs.Blocking.{is_blocking};

use crate::class::FrameClass;
use driver_views::Served;
use journal_types::Setup;

/// A classify filter drops each list with a frame of its class, which is that of LLDP frames, and passes any other
/// list on. It attaches with the programs that say just that, and refuses any others.
#[derive(Drop)]
pub struct ClassifyFilter<C: FrameClass> {
    pub(crate) class: C,
    pub(crate) setup: Option<Setup>,
    pub(crate) served: Served,
    pub(crate) refusals: u64,
    ghost is_lldp: { C.ethertype class ≡ 35020 },
    ghost blocks: { ForSome setup (λ s. is_blocking 35020 s ≡ true) },
}
