//! What each filter counts.
ghost use Rattle.std.specs.Prelude.{◌≡◌, ◌↔◌, [], true};
ghost use Rattle.driver_views.specs.States.{not_called};
ghost use Rattle.driver_views.specs.States.{IsRisen};
ghost use Rattle.frame_filters.specs.Filters.{IsEmpty};

use driver_views::Served;
use journal_types::Setup;
use program_types::Program;

/// No call was made yet.
pub fn not_called() -> Served
    ensures { result ≡ not_called }
{
    Served {
        send: 0,
        send_complete: 0,
        receive: 0,
        receive_lent: 0,
        returned: 0,
        oid: 0,
        oid_complete: 0,
        status: 0,
    }
}

/// One more; the last number stays.
pub fn risen(count: u64) -> u64
    ensures { IsRisen count result }
{
    if count < u64::MAX { count + 1 } else { count }
}

fn is_nothing(program: &Program) -> bool
    ensures { (result ≡ true) ↔ (program.now ≡ []) }
{
    program.rules().is_empty()
}

/// Whether both programs are empty.
pub(crate) fn is_empty(setup: &Setup) -> bool
    ensures { result ≡ true → IsEmpty setup.now }
{
    is_nothing(&setup.send) && is_nothing(&setup.receive)
}
