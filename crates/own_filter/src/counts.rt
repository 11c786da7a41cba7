//! Lists counted by the EtherType of their first frame.
ghost use Rattle.std.specs.Prelude.{◌≡◌, ◌+◌, ◌<◌};
ghost use Rattle.hand_lemmas.specs.Frames.{AreSized};
ghost use Rattle.own_filter.specs.Counting.{one_more, counted, counted_list};

use buffer_pools::BufferList;
use classify_filters::ethertype_of;

/// How many lists were given of each EtherType (IEEE 802 Numbers).
#[derive(Clone, Copy, Debug, PartialEq, Eq)]
pub struct Counts {
    pub ipv4: u64,
    pub arp: u64,
    pub ipv6: u64,
    pub other: u64,
}

fn one_more(count: u64) -> u64
    ensures { result ≡ one_more count }
{
    if count < u64::MAX { count + 1 } else { count }
}

impl Counts {
    pub fn none() -> Counts {
        Counts {
            ipv4: 0,
            arp: 0,
            ipv6: 0,
            other: 0,
        }
    }

    fn add(&mut self, ethertype: u16)
        ensures { self.new ≡ counted ethertype self.old }
    {
        match ethertype {
            0x0800 => self.ipv4 = one_more(self.ipv4),
            0x0806 => self.arp = one_more(self.arp),
            0x86DD => self.ipv6 = one_more(self.ipv6),
            _ => self.other = one_more(self.other),
        }
    }

    /// Counts a list by its first frame.
    pub fn add_list(&mut self, list: &BufferList)
        requires { AreSized list.now.frames }
        ensures { self.new ≡ counted_list list.now.frames self.old }
    {
        if list.buffers() > 0 {
            self.add(ethertype_of(list.frame(0).data()));
        }
    }
}
