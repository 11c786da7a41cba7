//! Bytes of frames, and VLAN tags (IEEE 802.1Q).
ghost use Rattle.std.specs.Prelude.{◌≡◌, ◌<◌, ◌++◌, IfOk, slice_index, take, drop};
ghost use Rattle.program_types.specs.Apply.{pair_at, is_tagged, vlan_of, part, tag, pushed, popped};

use ndis_base::{Frame, OutOfMemory};
use std::alloc::Global;

/// The byte at an offset, and 0 past the end.
pub fn byte_at(frame: &[u8], at: usize) -> u8
    ensures { result ≡ slice_index frame.now at }
{
    if at < frame.len() { frame[at] } else { 0 }
}

/// The first so many bytes, or all where there are fewer.
pub fn front_of(frame: &[u8], many: usize) -> &[u8]
    ensures { result.now ≡ take many frame.now }
{
    if many < frame.len() {
        &frame[..many]
    } else {
        frame
    }
}

/// The bytes from an offset on, none past the end.
pub fn rest_of(frame: &[u8], at: usize) -> &[u8]
    ensures { result.now ≡ drop at frame.now }
{
    if at < frame.len() {
        &frame[at..]
    } else {
        &frame[frame.len()..]
    }
}

/// So many bytes from an offset on.
pub fn part_of(frame: &[u8], at: usize, many: usize) -> &[u8]
    ensures { result.now ≡ part frame.now at many }
{
    front_of(rest_of(frame, at), many)
}

/// The number of two bytes, the most significant first.
pub fn pair_at(frame: &[u8], at: usize) -> u16
    requires { at < 1000 }
    ensures { result ≡ pair_at frame.now at }
{
    256 * byte_at(frame, at) as u16 + byte_at(frame, at + 1) as u16
}

/// Whether the frame has a whole header with a VLAN tag in it.
pub fn is_tagged(frame: &[u8]) -> bool
    ensures { result ≡ is_tagged frame.now }
{
    18 <= frame.len() && pair_at(frame, 12) == 0x8100
}

/// The VLAN in the tag.
pub fn vlan_of(frame: &[u8]) -> u16
    ensures { result ≡ vlan_of frame.now }
{
    pair_at(frame, 14) % 4096
}

/// The tag with this tag control information.
fn tag(control: u16) -> [u8; 4]
    ensures { result ≡ tag control }
{
    [0x81, 0, (control / 256) as u8, (control % 256) as u8]
}

/// The frame with a tag put in behind its two addresses.
pub fn pushed(alloc: Global, control: u16, frame: &[u8]) -> Result<Frame, OutOfMemory>
    ensures { IfOk result (λ made. made ≡ pushed control frame.now) }
{
    joined(
        alloc,
        front_of(frame, 12),
        &tag(control),
        rest_of(frame, 12),
    )
}

/// The frame without its tag.
pub fn popped(alloc: Global, frame: &[u8]) -> Result<Frame, OutOfMemory>
    ensures { IfOk result (λ made. made ≡ popped frame.now) }
{
    joined(alloc, front_of(frame, 12), &[], rest_of(frame, 16))
}

/// The frame that is three pieces, one behind the other.
pub fn joined(
    alloc: Global,
    first: &[u8],
    second: &[u8],
    third: &[u8],
) -> Result<Frame, OutOfMemory>
    ensures { IfOk result (λ made. made ≡ first.now ++ (second.now ++ third.now)) }
{
    let mut bytes = Vec::from_slice(alloc, first)?;
    bytes.extend_from_slice(second)?;
    bytes.extend_from_slice(third)?;
    Ok(Frame::of(bytes))
}
