//! The binding that asked hears that its request is done.
ghost use Rattle.std.specs.Prelude.{◌≡◌, ◌<◌, OnOk, length, map, slice_index_or};
ghost use Rattle.book_lemmas.specs.Views.{no_protocol};
ghost use Rattle.answer_work.specs.Rooms.{CanTell};
ghost use Rattle.answer_work.specs.Told.{told_of_answer};

use driver_calls::ProtocolCalls;
use ndis_base::{OidNo, OidStatus, OidValue, OutOfMemory};

const FAR: u64 = 1 << 60;

/// That the protocol of a binding can count one more answer.
pub fn room_at<P: ProtocolCalls>(protocols: &[P], binding: u32) -> Result<(), OutOfMemory>
    requires { binding < length protocols.now }
    ensures { OnOk result (CanTell (slice_index_or (map P.state protocols.now) binding no_protocol)) }
{
    if protocols[binding as usize].served().oid_complete >= FAR {
        Err(OutOfMemory)
    } else {
        Ok(())
    }
}

/// Tells the binding of a request that the request is done (WDK, "ProtocolOidRequestComplete"). No binding
/// hears of a clone.
pub fn tell_binding<P: ProtocolCalls>(
    protocols: &mut Vec<P>,
    parent: Option<OidNo>,
    binding: u32,
    request: OidNo,
    status: OidStatus,
    value: &OidValue,
)
    requires within { binding < length protocols.old.items }
    requires count { CanTell (slice_index_or (map P.state protocols.old.items) binding no_protocol) }
    ensures { map P.state protocols.new.items ≡ told_of_answer parent binding (map P.state protocols.old.items) }
{
    match parent {
        None => protocols[binding as usize].oid_complete(request, status, value),
        Some(_) => {}
    }
}
