//! What the filter is made of.
ghost use Rattle.std.specs.Prelude.{◌≡◌, true};
ghost use Rattle.std.specs.Option.{ForSome};
ghost use Rattle.classify_filters.specs.Blocking.{is_blocking};

use crate::board::Board;
use crate::class::EtherTypeClass;
use crate::counts::Counts;
use driver_views::Served;
use journal_types::Setup;
use std::alloc::Global;
use std::sync::Arc;

/// Counts the lists that it is given by the EtherType of their first frame, and drops those with a frame of
/// one EtherType. It attaches with the programs that say just that, and refuses any others.
#[derive(Drop)]
pub struct EtherTypeFilter {
    pub(crate) class: EtherTypeClass,
    pub(crate) setup: Option<Setup>,
    pub(crate) served: Served,
    pub(crate) refusals: u64,
    pub(crate) seen: Counts,
    pub(crate) board: Arc<Board, Global>,
    ghost blocks: { ForSome setup (λ s. is_blocking class.number s ≡ true) },
}
