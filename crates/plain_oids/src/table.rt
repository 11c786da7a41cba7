//! What the miniport answers to OID requests. Values have the least significant byte first.
ghost use Rattle.std.specs.Prelude.{◌≡◌, [], slice_index};
ghost use Rattle.ndis_base.specs.declared.OidStatus.TheVariants.{Success, NotSupported, BadLength};
ghost use Rattle.stack_rules.specs.OidTable.{queried, query_only, may_set, packet_filter_set, packet_filter, report_of, reported};

use ndis_base::{OidKind, OidStatus, OidValue};
use plain_net::PlainNet;
use plain_ports::port::{PACKET_FILTER, filter_in};
use stack_rules::Request;
use std::marker::Model;

// Further OIDs that the miniport answers to, by the numbers that NDIS gives them.
const MAXIMUM_FRAME_SIZE: u32 = 0x0001_0106;

const XMIT_OK: u32 = 0x0002_0101;

const RCV_OK: u32 = 0x0002_0102;

const PERMANENT_ADDRESS: u32 = 0x0101_0101;

const CURRENT_ADDRESS: u32 = 0x0101_0102;

/// The longest payload of a frame, in bytes.
const MAX_PAYLOAD: u32 = 1500;

/// The miniport's answer.
#[derive(Drop)]
pub struct PlainReport {
    status: OidStatus,
    value: OidValue,
}

impl Model for PlainReport {
    ghost use Rattle.stack_rules.specs.OidTable.{Reported};

    ghost Value = { Reported };

    ghost view = { λ r. record { status = r.status; value = r.value } };
}

impl PlainReport {
    pub fn status(&self) -> OidStatus
        ensures { result ≡ self.now.status }
    {
        self.status
    }

    pub fn value(&self) -> &OidValue
        ensures { result.now ≡ self.now.value }
    {
        &self.value
    }
}

fn success(value: OidValue) -> PlainReport
    ensures { result ≡ reported Success value }
{
    PlainReport {
        status: OidStatus::Success,
        value,
    }
}

fn not_supported() -> PlainReport
    ensures { result ≡ reported NotSupported [] }
{
    PlainReport {
        status: OidStatus::NotSupported,
        value: OidValue::of(&[]),
    }
}

fn bad_length() -> PlainReport
    ensures { result ≡ reported BadLength [] }
{
    PlainReport {
        status: OidStatus::BadLength,
        value: OidValue::of(&[]),
    }
}

/// A query's value, where the query came with none.
fn queried(asked: &OidValue, value: OidValue) -> PlainReport
    ensures { result ≡ queried asked.now value }
{
    if asked.bytes().len() == 0 {
        success(value)
    } else {
        bad_length()
    }
}

fn query_only(kind: OidKind, asked: &OidValue, value: OidValue) -> PlainReport
    ensures { result ≡ query_only kind asked.now value }
{
    match kind {
        OidKind::Query => queried(asked, value),
        OidKind::Set => not_supported(),
    }
}

/// Whether a packet filter may be set: directed, multicast, broadcast and all.
fn may_set(value: u32) -> bool
    ensures { result ≡ may_set value }
{
    value & 45 == value
}

fn filter_set(asked: &OidValue) -> PlainReport
    ensures { result ≡ packet_filter_set asked.now }
{
    if asked.bytes().len() != 4 {
        bad_length()
    } else if may_set(filter_in(asked.bytes())) {
        success(OidValue::of(&[]))
    } else {
        not_supported()
    }
}

fn packet_filter(kind: OidKind, asked: &OidValue, value: u32) -> PlainReport
    ensures { result ≡ packet_filter kind asked.now value }
{
    match kind {
        OidKind::Query => queried(asked, OidValue::of(&value.to_le_bytes())),
        OidKind::Set => filter_set(asked),
    }
}

fn filter_of(filters: &[u32], b: u32) -> u32
    ensures { result ≡ slice_index filters.now b }
{
    if (b as usize) < filters.len() {
        filters[b as usize]
    } else {
        0
    }
}

/// The miniport's answer to a request.
pub fn report_of(net: &PlainNet, r: &Request) -> PlainReport
    ensures { result ≡ report_of net.now r.now }
{
    let value = &r.value;
    let port = net.port();
    if r.code == MAXIMUM_FRAME_SIZE {
        query_only(r.kind, value, OidValue::of(&MAX_PAYLOAD.to_le_bytes()))
    } else if r.code == PACKET_FILTER {
        packet_filter(r.kind, value, filter_of(port.answers_by(), r.binding))
    } else if r.code == XMIT_OK {
        query_only(r.kind, value, OidValue::of(&port.sent().to_le_bytes()))
    } else if r.code == RCV_OK {
        query_only(r.kind, value, OidValue::of(&port.received().to_le_bytes()))
    } else if r.code == PERMANENT_ADDRESS {
        query_only(r.kind, value, OidValue::of(&net.head().port.address))
    } else if r.code == CURRENT_ADDRESS {
        query_only(r.kind, value, OidValue::of(&net.head().port.address))
    } else {
        not_supported()
    }
}
