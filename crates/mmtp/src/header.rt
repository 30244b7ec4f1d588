// The MMTP header.
ghost use Rattle.std.specs.Prelude.{◌≡◌};
ghost use Rattle.mmtp.specs.Header.{fixed_bytes, start_of, header_of};

use wire::field::Field;

// A packet sequence number, counted per packet_id; the MPU sequence number beside it is a plain number.
#[derive(Clone, Copy, PartialEq, Eq, Default)]
pub struct Psn(pub u32);

#[derive(Clone, Copy)]
pub struct Header {
    pub payload_type: u8,
    pub packet_id: u16,
    pub psn: Psn,
    // Where the payload starts in the MMTP packet.
    pub start: usize,
}

// The bytes before an extension: 12, and with flag C a counter of 4.
#[tactic(auto, unfolding(crate::specs::Header::fixed_bytes))]
fn fixed_bytes(first: u8) -> usize
    ensures { result ≡ fixed_bytes first }
{
    if first >> 5 & 1 == 1 { 16 } else { 12 }
}

// Where the payload starts; none where the header is cut short.
#[tactic(auto, using(crate::proofs::HeaderLaws::fixed_bounds), unfolding(crate::specs::Header::start_of, crate::specs::Header::payload_start, crate::specs::Header::extension_bytes, crate::specs::Header::extension_length))]
fn start_of(m: &[u8]) -> Option<usize>
    ensures { result ≡ start_of m.now }
{
    let first = *m.first()?;
    let mut start = fixed_bytes(first);
    // Flag X: an extension of 2 bytes of type, 2 of length, and that many.
    if first >> 1 & 1 == 1 {
        if m.len() < start + 4 {
            return None;
        }
        start += 4 + usize::from(u16::read(m, start + 2));
    }
    if start <= m.len() { Some(start) } else { None }
}

#[tactic(auto, using(crate::proofs::HeaderLaws::fields_inside), unfolding(crate::specs::Header::header_of, crate::specs::Header::start_of, crate::specs::Header::plain))]
pub fn read(m: &[u8]) -> Option<Header>
    ensures { result ≡ header_of m.now }
{
    let start = start_of(m)?;
    let first = m[0];
    if first >> 6 & 3 != 0 || first >> 3 & 3 != 0 {
        return None;
    }
    Some(Header {
        payload_type: m[1] & 63,
        packet_id: u16::read(m, 2),
        psn: Psn(u32::read(m, 8)),
        start,
    })
}
