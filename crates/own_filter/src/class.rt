//! The frames of one EtherType, which is chosen where the filter is made.
use classify_filters::{FrameClass, ethertype_of};

/// The frames of this EtherType (IEEE 802 Numbers).
#[derive(Drop)]
pub struct EtherTypeClass {
    pub(crate) number: u16,
}

impl FrameClass for EtherTypeClass {
    ghost ethertype = { λ c. c.number };

    fn is_of(&self, frame: &[u8]) -> bool {
        ethertype_of(frame) == self.number
    }
}
