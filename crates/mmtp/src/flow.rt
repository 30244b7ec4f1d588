// A TLV packet's flow: where its MMTP packet starts, by packet type, context id and compressed header type.
ghost use Rattle.std.specs.Prelude.{◌≡◌, length};
ghost use Rattle.mmtp.specs.Flow.{as_flow, compressed_header, compressed_of, flow_of};

use crate::note::PacketNote;
use wire::field::Field;

// Where the payload starts behind a compressed header, counted from the context id; none for a reserved header type.
#[tactic(auto, unfolding(crate::specs::Flow::compressed_header))]
fn compressed_header(kind: u8) -> Option<usize>
    ensures { result ≡ compressed_header kind }
{
    match kind {
        0x20 => Some(23),
        0x21 => Some(5),
        0x60 => Some(45),
        0x61 => Some(3),
        0..=0x1f | 0x22..=0x5f | 0x62..=0xff => None,
    }
}

// A packet of type 3: context id, SN, header type.
#[tactic(auto, using(crate::proofs::FlowLaws::start_bounds), unfolding(crate::specs::Flow::compressed_of, crate::specs::Flow::behind))]
fn find_compressed(packet: &[u8], cid: u16) -> Result<Option<usize>, PacketNote>
    ensures { as_flow result ≡ compressed_of packet.now cid }
{
    if packet.len() < 7 {
        return Err(PacketNote::BadFlow);
    }
    if u16::read(packet, 4) >> 4 != cid {
        return Ok(None);
    }
    let start = 4 + compressed_header(packet[6]).ok_or(PacketNote::BadFlow)?;
    if packet.len() < start {
        return Err(PacketNote::BadFlow);
    }
    Ok(Some(start))
}

// Where the MMTP packet starts in a TLV packet of the flow with context id `cid`; it reaches to the end.
// None in another packet type or another flow.
#[tactic(auto, unfolding(crate::specs::Flow::flow_of))]
pub fn find(packet: &[u8], cid: u16) -> Result<Option<usize>, PacketNote>
    ensures { as_flow result ≡ flow_of packet.now cid }
{
    match packet {
        [_, 3, ..] => find_compressed(packet, cid),
        [_, 0..=2 | 4..=0xff, ..] | [] | [_] => Ok(None),
    }
}
