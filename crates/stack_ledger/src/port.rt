//! What the miniport answers requests by, and the packet filters by which lists are delivered to bindings.
ghost use Rattle.std.specs.Prelude.{◌≡◌, ◌+◌, ◌<◌, ◌^◌, IfOk, length, replicate, slice_index, if◌then◌else◌, Some};
ghost use Rattle.std.specs.Int.{from_le_bytes, w32};
ghost use Rattle.std.specs.Vec.{vec_len};
ghost use Rattle.stack_rules.specs.Tests.{is_miniport};
ghost use Rattle.stack_rules.specs.Port.{port_after_done, port_after_out, filters_set_when, sets_packet_filter, is_given_to_miniport, is_root_request};

use journal_types::OutWay;
use ndis_base::{ModuleId, OidKind, OidNo, OidStatus, OutOfMemory};
use stack_rules::{Request, RequestAt};
use std::alloc::Global;
use std::marker::Model;

/// The code of the request that sets a binding's packet filter: OID_GEN_CURRENT_PACKET_FILTER.
const PACKET_FILTER: u32 = 0x0001_010e;

/// The packet filter that takes all frames: NDIS_PACKET_TYPE_PROMISCUOUS.
const ALL_FRAMES: u32 = 0x20;

/// How many frames the miniport sent and indicated, and for each binding the packet filter that the
/// miniport answers with and the one by which lists are delivered.
#[derive(Drop)]
pub struct LedgerPort {
    sent: u64,
    received: u64,
    answers_by: Vec<u32>,
    delivers_by: Vec<u32>,
}

impl Model for LedgerPort {
    ghost use Rattle.stack_rules.specs.Port.{Port};

    ghost Value = { Port };

    ghost view = { λ p. record { sent = p.sent; received = p.received; answers_by = p.answers_by.items; delivers_by = p.delivers_by.items } };
}

/// Before any frame is sent or indicated: each of so many bindings takes all frames.
pub fn first_port(alloc: Global, bindings: usize) -> Result<LedgerPort, OutOfMemory>
    ensures { IfOk result (λ p. p ≡ record { sent = 0; received = 0; answers_by = replicate bindings 32; delivers_by = replicate bindings 32 }) }
{
    Ok(LedgerPort {
        sent: 0,
        received: 0,
        answers_by: vec![in alloc; ALL_FRAMES; bindings]?,
        delivers_by: vec![in alloc; ALL_FRAMES; bindings]?,
    })
}

fn take_all_frames(filters: &mut Vec<u32>)
    ensures { filters.new.items ≡ replicate (vec_len filters.old) 32 }
{
    let many = filters.len();
    filters.clear();
    for i in 0..many {
        filters.push_reserved(ALL_FRAMES);
    }
}

fn byte_at(value: &[u8], at: usize) -> u8
    ensures { result ≡ slice_index value.now at }
{
    if at < value.len() { value[at] } else { 0 }
}

fn filter_in(value: &[u8]) -> u32
    ensures { result ≡ from_le_bytes w32 value.now }
{
    u32::from_le_bytes([
        byte_at(value, 0),
        byte_at(value, 1),
        byte_at(value, 2),
        byte_at(value, 3),
    ])
}

fn sets_filter(r: &Request, status: OidStatus) -> bool
    ensures { result ≡ sets_packet_filter r.now status }
{
    matches!(status, OidStatus::Success)
        && matches!(r.kind, OidKind::Set)
        && r.code == PACKET_FILTER
}

fn is_given_to_miniport(at: RequestAt) -> bool
    ensures { result ≡ is_given_to_miniport at }
{
    match at {
        RequestAt::Given(m) => matches!(m, ModuleId::Miniport),
        _ => false,
    }
}

fn no_parent(parent: Option<OidNo>) -> bool
    ensures { result ≡ is_root_request parent }
{
    match parent {
        None => true,
        Some(_) => false,
    }
}

fn set_when(b: bool, filters: &mut Vec<u32>, binding: u32, value: &[u8])
    ensures { filters.new.items ≡ filters_set_when b filters.old.items binding value.now }
{
    if b && (binding as usize) < filters.len() {
        filters[binding as usize] = filter_in(value);
    }
}

impl LedgerPort {
    /// How many frames the miniport sent.
    pub fn sent(&self) -> u64
        ensures { result ≡ self.now.sent }
    {
        self.sent
    }

    /// How many frames the miniport indicated.
    pub fn received(&self) -> u64
        ensures { result ≡ self.now.received }
    {
        self.received
    }

    /// The packet filter of each binding that the miniport answers with.
    pub fn answers_by(&self) -> &[u32]
        ensures { result.now ≡ self.now.answers_by }
    {
        self.answers_by.as_slice()
    }

    /// The packet filter of each binding by which lists are delivered to it.
    pub fn delivers_by(&self) -> &[u32]
        ensures { result.now ≡ self.now.delivers_by }
    {
        self.delivers_by.as_slice()
    }

    /// Counts and packet filters start again.
    pub fn reset(&mut self)
        ensures { self.new ≡ record { sent = 0; received = 0; answers_by = replicate (length self.old.answers_by) 32; delivers_by = replicate (length self.old.delivers_by) 32 } }
    {
        self.sent = 0;
        self.received = 0;
        take_all_frames(&mut self.answers_by);
        take_all_frames(&mut self.delivers_by);
    }

    /// Counts so many more frames as sent.
    pub fn count_sent(&mut self, frames: usize)
        requires { self.old.sent + frames < 2 ^ 64 }
        ensures { self.new ≡ record self.old { sent = self.old.sent + frames } }
    {
        self.sent += frames as u64;
    }

    /// Counts so many more frames as indicated, where the miniport issues them.
    pub fn count_issued(&mut self, owner: ModuleId, frames: usize)
        requires { self.old.received + frames < 2 ^ 64 }
        ensures { self.new ≡ record self.old { received = if is_miniport owner then self.old.received + frames else self.old.received } }
    {
        if matches!(owner, ModuleId::Miniport) {
            self.received += frames as u64;
        }
    }

    /// Counts so many more frames as sent, where they leave downwards.
    pub fn count_out(&mut self, way: OutWay, frames: usize)
        requires { self.old.sent + frames < 2 ^ 64 }
        ensures { self.new ≡ port_after_out way frames self.old }
    {
        match way {
            OutWay::Down(_) => self.count_sent(frames),
            OutWay::Up => (),
        }
    }

    /// Takes the packet filter of a request that was answered, where it sets one.
    pub fn take_done(&mut self, r: &Request, status: OidStatus)
        ensures { self.new ≡ port_after_done (Some r.now) status self.old }
    {
        let sets = sets_filter(r, status);
        let answers = sets && is_given_to_miniport(r.at);
        let delivers = sets && no_parent(r.parent);
        set_when(answers, &mut self.answers_by, r.binding, r.value.bytes());
        set_when(delivers, &mut self.delivers_by, r.binding, r.value.bytes());
    }
}
