//! What filters are made of.
ghost use Rattle.std.specs.Prelude.{◌≡◌, false};
ghost use Rattle.std.specs.Option.{ForSome};
ghost use Rattle.stack_rules.specs.Tests.{is_hold};
ghost use Rattle.frame_filters.specs.Filters.{IsEmpty};

use driver_views::Served;
use journal_types::Setup;
use ndis_base::FilterKind;

/// A filter without rules that keeps no list.
#[derive(Drop)]
pub struct Plain {
    pub(crate) kind: FilterKind,
    pub(crate) setup: Option<Setup>,
    pub(crate) served: Served,
    pub(crate) refusals: u64,
    ghost empty: { ForSome setup IsEmpty },
    ghost keeps_none: { is_hold kind ≡ false },
}
