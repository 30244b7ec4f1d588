// TLV packets in a slice: the header, the next packet, and the walk over all of them.
ghost use Rattle.std.specs.Prelude.{◌≡◌, ◌+◌, ◌≤◌, ◌<◌, length, drop};
ghost use Rattle.tlv.specs.Packet.{good_first, total, packet_at, walk_of, too_long};

use wire::field::Field;

// The longest TLV packet that is kept, its header included.
pub const MAX_PACKET: usize = 16384;

// Whether a byte begins a good TLV header: 0x7F, that is 01 and six reserved bits, all 1.
fn good_first(b: u8) -> bool
    ensures { result ≡ good_first b }
{
    b == 0x7f
}

// The bytes of the packet whose header stands at `at`, the header included.
pub fn total_at(s: &[u8], at: usize) -> usize
    requires { at + 4 ≤ length s.now }
    ensures { (result ≡ total (drop at s.now)) × (result < 65540) }
{
    4 + usize::from(u16::read(s, at + 2))
}

// The end of the packet at a place of a slot, if it is complete.
pub fn packet_at(s: &[u8], at: usize) -> Option<usize>
    ensures { result ≡ packet_at s.now at }
{
    let left = s.len().checked_sub(at)?;
    if left < 4 {
        return None;
    }
    let n = total_at(s, at);
    if n <= left { Some(at + n) } else { None }
}

// Whether the total of the packet at `at` is known and above what is kept.
pub fn too_long(s: &[u8], at: usize) -> bool
    requires { at ≤ length s.now }
    ensures { result ≡ too_long (drop at s.now) }
{
    4 <= s.len() - at && MAX_PACKET < total_at(s, at)
}

// The end of the last complete packet from `t` on; none if a packet's first byte is not good. A step is a packet, not a place.
pub fn walk(s: &[u8], t: usize) -> Option<usize>
    requires { t ≤ length s.now }
    ensures { result ≡ walk_of s.now t }
{
    let mut at = t;
    while at < s.len() {
        if !good_first(s[at]) {
            return None;
        }
        let Some(end) = packet_at(s, at) else { break };
        at = end;
    }
    Some(at)
}
