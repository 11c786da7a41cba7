//! What each adapter counts.
ghost use Rattle.std.specs.Prelude.{◌≡◌};
ghost use Rattle.driver_views.specs.States.{not_called};
ghost use Rattle.driver_views.specs.States.{IsRisen};

use driver_views::Served;

/// No call was made yet.
pub(crate) fn not_called() -> Served
    ensures { result ≡ not_called }
{
    Served {
        send: 0,
        send_complete: 0,
        receive: 0,
        receive_lent: 0,
        returned: 0,
        oid: 0,
        oid_complete: 0,
        status: 0,
    }
}

/// One more; the last number stays.
pub(crate) fn risen(count: u64) -> u64
    ensures { IsRisen count result }
{
    if count < u64::MAX { count + 1 } else { count }
}
