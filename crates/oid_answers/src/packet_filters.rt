//! Packet filters, which tell what kinds of frames a binding receives (WDK, "OID_GEN_CURRENT_PACKET_FILTER").
ghost use Rattle.std.specs.Prelude.{◌≡◌, slice_index};
ghost use Rattle.std.specs.Int.{from_le_bytes, w32};
ghost use Rattle.stack_rules.specs.OidTable.{may_set, packet_filter_set, packet_filter};
ghost use Rattle.oid_answers.specs.Told.{told};

use crate::answers::{bad_length, not_supported, queried, success};
use crate::codes::SETTABLE_BITS;
use driver_calls::OidAnswer;
use ndis_base::{OidKind, OidValue};

/// Whether a packet filter may be set: it asks for directed, multicast, broadcast or all frames alone.
fn may_set(filter: u32) -> bool
    ensures { result ≡ may_set filter }
{
    filter & SETTABLE_BITS == filter
}

fn byte_at(value: &[u8], at: usize) -> u8
    ensures { result ≡ slice_index value.now at }
{
    if at < value.len() { value[at] } else { 0 }
}

/// The packet filter in the first four bytes, the least significant first.
fn filter_in(value: &[u8]) -> u32
    ensures { result ≡ from_le_bytes w32 value.now }
{
    u32::from_le_bytes([
        byte_at(value, 0),
        byte_at(value, 1),
        byte_at(value, 2),
        byte_at(value, 3),
    ])
}

/// Sets a packet filter, which has four bytes.
fn packet_filter_set(asked: &OidValue) -> OidAnswer
    ensures { told result ≡ packet_filter_set asked.now }
{
    if asked.bytes().len() != 4 {
        bad_length()
    } else if may_set(filter_in(asked.bytes())) {
        success(OidValue::of(&[]))
    } else {
        not_supported()
    }
}

/// Queries a binding's packet filter, or sets it.
pub(crate) fn packet_filter(kind: OidKind, asked: &OidValue, filter: u32) -> OidAnswer
    ensures { told result ≡ packet_filter kind asked.now filter }
{
    match kind {
        OidKind::Query => queried(asked, OidValue::of(&filter.to_le_bytes())),
        OidKind::Set => packet_filter_set(asked),
    }
}

/// The packet filter of a binding; 0 for one that isn't there.
pub(crate) fn filter_of(filters: &[u32], binding: u32) -> u32
    ensures { result ≡ slice_index filters.now binding }
{
    if (binding as usize) < filters.len() {
        filters[binding as usize]
    } else {
        0
    }
}
