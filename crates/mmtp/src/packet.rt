// An MMTP packet, read: header, watch list and payload, in this order.
ghost use Rattle.std.specs.Prelude.{◌≡◌, ◌+◌, ◌≤◌, length};
ghost use Rattle.watch.specs.Rising.{search_of};
ghost use Rattle.watch.specs.Words.{rising_in};
ghost use Rattle.mmtp.specs.Packet.{as_reading, reading_of};

use crate::header::Psn;
use crate::note::{Noted, PacketNote};
use crate::payload::Payload;

// A packet of a watched packet_id.
#[derive(Clone, Copy)]
pub struct Packet {
    // The place that its packet_id has in the list that start was given.
    pub place: usize,
    pub packet_id: u16,
    pub psn: Psn,
    pub payload: Payload,
}

// The packet `m`, by the watch list of `n` ids whose words start at `i`; none where its packet_id is not watched.
#[tactic(auto, unfolding(crate::specs::Packet::reading_of, crate::specs::Packet::head_read, crate::specs::Packet::looked_up, crate::specs::Packet::body_read))]
pub fn read(m: &[u8], t: &[u64], i: usize, n: u64) -> Result<Option<Packet>, Noted>
    requires { i + 16 ≤ length t.now }
    ensures { as_reading result ≡ reading_of m.now (search_of (rising_in t.now i n)) }
{
    let header = crate::header::read(m).ok_or(PacketNote::BadHeader)?;
    let packet_id = header.packet_id;
    let Some(place) = watch::rising::search(t, i, n, packet_id) else {
        return Ok(None);
    };
    let bad_payload = Noted {
        note: PacketNote::BadPayload,
        packet_id,
    };
    let payload = crate::payload::read(m, header.start, header.payload_type).ok_or(bad_payload)?;
    Ok(Some(Packet {
        place,
        packet_id,
        psn: header.psn,
        payload,
    }))
}
