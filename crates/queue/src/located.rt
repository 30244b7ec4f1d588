// An MMTP packet in packet memory, and a whole unit of it.
ghost use Rattle.std.specs.Prelude.{◌≡◌, ◌+◌, ◌≤◌, ◌<◌};
ghost use Rattle.queue.specs.Located.{whole_given};

use crate::event::{Given, Memory, Place};
use mmtp::packet::Packet;
use mmtp::unit::DataUnit;

// An MMTP packet of a watched packet_id, and where it stands in packet memory.
#[derive(Clone, Copy)]
pub struct Located {
    pub packet: Packet,
    pub start: usize,
    pub end: usize,
}

// A whole unit stands in packet memory.
pub fn whole(l: Located, u: DataUnit) -> Given
    requires { (u.start ≤ u.end) × (l.start + u.start < 18446744073709551616) }
    ensures { result ≡ whole_given l u }
{
    Given {
        unit: reassembly::unit::of_packet(l.packet, u.fields),
        place: Place {
            memory: Memory::Packet,
            start: l.start + u.start,
            len: u.end - u.start,
        },
    }
}
