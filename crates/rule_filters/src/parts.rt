//! What filters with programs are made of.
ghost use Rattle.std.specs.Prelude.{◌≡◌, false};
ghost use Rattle.stack_rules.specs.Tests.{is_hold};

use driver_views::Served;
use frame_programs::MadeFrames;
use journal_types::Setup;
use kept_lists::KeptLists;
use ndis_base::FilterKind;

/// A filter that does with frames what its programs say, and keeps the lists for which it sent clones on.
#[derive(Drop)]
pub struct Programmed {
    pub(crate) kind: FilterKind,
    pub(crate) setup: Option<Setup>,
    pub(crate) served: Served,
    pub(crate) refusals: u64,
    pub(crate) kept: KeptLists,
    pub(crate) made: MadeFrames,
    ghost holds_none: { is_hold kind ≡ false },
}
