//! The adapter's answer to a request.
ghost use Rattle.std.specs.Prelude.{◌≡◌};
ghost use Rattle.std.specs.Int.{to_le_bytes, w32, w64};
ghost use Rattle.stack_rules.specs.OidTable.{maximum_frame_size, query_only, report_of};
ghost use Rattle.oid_answers.specs.Told.{told, report_of_adapter};

use crate::answers::{not_supported, query_only};
use crate::codes::{
    MAXIMUM_FRAME_SIZE, OID_802_3_CURRENT_ADDRESS, OID_802_3_PERMANENT_ADDRESS,
    OID_GEN_CURRENT_PACKET_FILTER, OID_GEN_MAXIMUM_FRAME_SIZE, OID_GEN_RCV_OK, OID_GEN_XMIT_OK,
};
use crate::packet_filters::{filter_of, packet_filter};
use driver_calls::OidAnswer;
use driver_tray::Tray;
use ndis_base::{OidKind, OidValue};
use stack_rules::Request;

/// OID_GEN_MAXIMUM_FRAME_SIZE, in four bytes.
fn frame_size(kind: OidKind, asked: &OidValue) -> OidAnswer
    ensures { told result ≡ query_only kind asked.now (to_le_bytes w32 maximum_frame_size) }
{
    query_only(kind, asked, OidValue::of(&MAXIMUM_FRAME_SIZE.to_le_bytes()))
}

/// A count of frames, in eight bytes.
fn counted(kind: OidKind, asked: &OidValue, count: u64) -> OidAnswer
    ensures { told result ≡ query_only kind asked.now (to_le_bytes w64 count) }
{
    query_only(kind, asked, OidValue::of(&count.to_le_bytes()))
}

/// The answer to the OIDs that tell what the adapter counted and its address; no other is supported.
fn report_of_adapter(tray: &Tray, request: &Request) -> OidAnswer
    ensures { told result ≡ report_of_adapter tray.now.net request.now }
{
    let kind = request.kind;
    let asked = &request.value;
    match request.code {
        OID_GEN_XMIT_OK => counted(kind, asked, tray.sent()),
        OID_GEN_RCV_OK => counted(kind, asked, tray.received()),
        OID_802_3_PERMANENT_ADDRESS | OID_802_3_CURRENT_ADDRESS => {
            query_only(kind, asked, OidValue::of(&tray.head().port.address))
        }
        _ => not_supported(),
    }
}

/// The answer by the whole table.
fn report(tray: &Tray, request: &Request) -> OidAnswer
    ensures { told result ≡ report_of tray.now.net request.now }
{
    let kind = request.kind;
    let asked = &request.value;
    match request.code {
        OID_GEN_MAXIMUM_FRAME_SIZE => frame_size(kind, asked),
        OID_GEN_CURRENT_PACKET_FILTER => {
            packet_filter(kind, asked, filter_of(tray.answers_by(), request.binding))
        }
        _ => report_of_adapter(tray, request),
    }
}

/// What the adapter answers to a request, as things stand in the tray: the value of each OID has the least
/// significant byte first; an OID that it doesn't know isn't supported.
pub fn report_in(tray: &Tray, request: &Request) -> OidAnswer
    ensures status { result.status ≡ (report_of tray.now.net request.now).status }
    ensures value { result.value ≡ (report_of tray.now.net request.now).value }
{
    report(tray, request)
}
