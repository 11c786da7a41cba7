//! Classes of frames, told by their EtherType (IEEE 802 Numbers).
ghost use Rattle.std.specs.Prelude.{◌≡◌, ℕ, ◌<◌, ◌==◌, length};
ghost use Rattle.program_types.specs.Apply.{pair_at};

/// The EtherType of a frame, which stands behind the two addresses.
pub fn ethertype_of(frame: &[u8]) -> u16
    requires { 13 < length frame.now }
    ensures { result ≡ pair_at frame.now 12 }
{
    u16::from_be_bytes([frame[12], frame[13]])
}

/// A class of frames: those of one EtherType. A filter driver asks besides that a class may be sent to other
/// threads (`Send`).
pub trait FrameClass: Drop {
    /// The EtherType of its frames.
    ghost ethertype: { Self → ℕ };

    /// Whether a frame is of the class.
    fn is_of(&self, frame: &[u8]) -> bool
        requires { 13 < length frame.now }
        ensures { result ≡ (pair_at frame.now 12 == ethertype self.now) };
}

/// The frames of the Link Layer Discovery Protocol (IEEE 802.1AB), whose EtherType is 0x88CC.
#[derive(Drop)]
pub struct LldpClass;

impl FrameClass for LldpClass {
    ghost ethertype = { λ _. 35020 };

    fn is_of(&self, frame: &[u8]) -> bool {
        ethertype_of(frame) == 0x88CC
    }
}
