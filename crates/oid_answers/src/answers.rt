//! Answers to requests that no OID makes special.
ghost use Rattle.std.specs.Prelude.{◌≡◌, []};
ghost use Rattle.ndis_base.specs.declared.OidStatus.TheVariants.{Success, NotSupported, BadLength};
ghost use Rattle.stack_rules.specs.OidTable.{queried, query_only, reported};
ghost use Rattle.oid_answers.specs.Told.{told};

use driver_calls::OidAnswer;
use ndis_base::{OidKind, OidStatus, OidValue};

/// The request is done, with this value.
pub(crate) fn success(value: OidValue) -> OidAnswer
    ensures { told result ≡ reported Success value }
{
    OidAnswer {
        status: OidStatus::Success,
        value,
    }
}

/// NDIS_STATUS_NOT_SUPPORTED: the adapter doesn't know the OID, or doesn't let it be set so.
pub(crate) fn not_supported() -> OidAnswer
    ensures { told result ≡ reported NotSupported [] }
{
    OidAnswer {
        status: OidStatus::NotSupported,
        value: OidValue::of(&[]),
    }
}

/// NDIS_STATUS_INVALID_LENGTH: the request's value has another length than the OID wants.
pub(crate) fn bad_length() -> OidAnswer
    ensures { told result ≡ reported BadLength [] }
{
    OidAnswer {
        status: OidStatus::BadLength,
        value: OidValue::of(&[]),
    }
}

/// A query is answered with the value where it came with none itself.
pub(crate) fn queried(asked: &OidValue, value: OidValue) -> OidAnswer
    ensures { told result ≡ queried asked.now value }
{
    if asked.bytes().is_empty() {
        success(value)
    } else {
        bad_length()
    }
}

/// An OID that can be queried, and never set.
pub(crate) fn query_only(kind: OidKind, asked: &OidValue, value: OidValue) -> OidAnswer
    ensures { told result ≡ query_only kind asked.now value }
{
    match kind {
        OidKind::Query => queried(asked, value),
        OidKind::Set => not_supported(),
    }
}
