//! What each protocol counts.
ghost use Rattle.std.specs.Prelude.{◌≡◌};
ghost use Rattle.driver_views.specs.States.{not_called};

use driver_views::Served;

/// No call was made yet.
pub(crate) fn not_called() -> Served
    ensures { result ≡ not_called }
{
    Served {
        send: 0,
        send_complete: 0,
        receive: 0,
        receive_lent: 0,
        returned: 0,
        oid: 0,
        oid_complete: 0,
        status: 0,
    }
}
