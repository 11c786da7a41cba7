//! Which bindings take a list (WDK, "OID_GEN_CURRENT_PACKET_FILTER").
ghost use Rattle.std.specs.Prelude.{◌≡◌, ◌<◌, ◌≤◌, ◌+◌, ◌∷◌, [], IfSome, IfNone, length, take, slice_index, slice_index_or};
ghost use Rattle.std.specs.Str.{bytes_eq};
ghost use Rattle.stack_rules.specs.Deliveries.{is_broadcast, is_multicast, is_taken_by};
ghost use Rattle.delivery_work.specs.Takers.{is_taker, takers_from};

use buffer_pools::BufferList;
use driver_tray::Tray;

/// The destination address of a frame, or the whole frame where it is shorter.
fn destination(frame: &[u8]) -> &[u8]
    ensures { result.now ≡ take 6 frame.now }
{
    if 6 < frame.len() { &frame[..6] } else { frame }
}

/// Whether a frame goes to an address.
fn goes_to(frame: &[u8], address: &[u8]) -> bool
    ensures { result ≡ bytes_eq (take 6 frame.now) address.now }
{
    destination(frame) == address
}

fn is_broadcast(frame: &[u8]) -> bool
    ensures { result ≡ is_broadcast frame.now }
{
    goes_to(frame, &[255; 6])
}

fn first_byte(frame: &[u8]) -> u8
    ensures { result ≡ slice_index frame.now 0 }
{
    match frame {
        [] => 0,
        [first, ..] => *first,
    }
}

fn is_multicast(frame: &[u8]) -> bool
    ensures { result ≡ is_multicast frame.now }
{
    first_byte(frame) & 1 == 1 && !is_broadcast(frame)
}

/// Whether a packet filter takes a frame.
fn takes(value: u32, address: &[u8], frame: &[u8]) -> bool
    ensures { result ≡ is_taken_by value address.now frame.now }
{
    (value & 1 == 1 && goes_to(frame, address))
        || ((value & 4 == 4 && is_multicast(frame))
            || ((value & 8 == 8 && is_broadcast(frame)) || value & 32 == 32))
}

fn filter_at(filters: &[u32], binding: u32) -> u32
    ensures { result ≡ slice_index filters.now binding }
{
    if (binding as usize) < filters.len() {
        filters[binding as usize]
    } else {
        0
    }
}

fn first_frame(list: &BufferList) -> &[u8]
    requires { 0 < length list.now.frames }
    ensures { result.now ≡ slice_index_or list.now.frames 0 [] }
{
    list.frame(0).data()
}

/// Whether a binding takes a list.
fn is_taker(tray: &Tray, list: &BufferList, binding: u32) -> bool
    requires { 0 < length list.now.frames }
    ensures { result ≡ is_taker tray.now.net list.now.frames binding }
{
    takes(
        filter_at(tray.delivers_by(), binding),
        &tray.head().port.address,
        first_frame(list),
    )
}

/// The first binding from this one on that takes a list, where there are so many bindings.
pub fn next_taker(tray: &Tray, list: &BufferList, from: u32, many: u32) -> Option<u32>
    requires { 0 < length list.now.frames }
    ensures none { IfNone result (takers_from tray.now.net list.now.frames from many ≡ []) }
    ensures above { IfSome result (λ b. from ≤ b) }
    ensures below { IfSome result (λ b. b < many) }
    ensures taken { IfSome result (λ b. takers_from tray.now.net list.now.frames from many ≡ b ∷ takers_from tray.now.net list.now.frames (b + 1) many) }
{
    if from >= many {
        return None;
    }
    if is_taker(tray, list, from) {
        return Some(from);
    }
    next_taker(tray, list, from + 1, many)
}
