//! Where a filter in a box tells its author what it counted. No contract says what stands there: that the
//! counts are right is proved of the filter, which alone writes them.
use crate::counts::Counts;
use std::sync::atomic::{AtomicU64, Ordering};

/// The counts that were told last.
#[derive(Drop)]
pub struct Board {
    ipv4: AtomicU64,
    arp: AtomicU64,
    ipv6: AtomicU64,
    other: AtomicU64,
}

impl Board {
    pub fn empty() -> Board {
        Board {
            ipv4: AtomicU64::new(0),
            arp: AtomicU64::new(0),
            ipv6: AtomicU64::new(0),
            other: AtomicU64::new(0),
        }
    }

    pub(crate) fn tell(&self, counts: &Counts) {
        self.ipv4.store(counts.ipv4, Ordering::SeqCst);
        self.arp.store(counts.arp, Ordering::SeqCst);
        self.ipv6.store(counts.ipv6, Ordering::SeqCst);
        self.other.store(counts.other, Ordering::SeqCst);
    }

    pub fn read(&self) -> Counts {
        Counts {
            ipv4: self.ipv4.load(Ordering::SeqCst),
            arp: self.arp.load(Ordering::SeqCst),
            ipv6: self.ipv6.load(Ordering::SeqCst),
            other: self.other.load(Ordering::SeqCst),
        }
    }
}
