// What a unit carries beside its bytes.
ghost use Rattle.std.specs.Prelude.{◌≡◌};
ghost use Rattle.reassembly.specs.Unit.{carried, agrees};

use mmtp::header::Psn;
use mmtp::packet::Packet;
use mmtp::unit::Fields;

#[derive(Clone, Copy, Default)]
pub struct Unit {
    pub packet_id: u16,
    pub kind: u8,
    // The psn of its first packet.
    pub psn: Psn,
    // The MPU sequence number.
    pub mpu: u32,
    // Its first piece's fields.
    pub fields: Fields,
}

// What a unit that begins with a data unit of this packet carries.
pub fn of_packet(p: Packet, fields: Fields) -> Unit
    ensures { result ≡ carried p fields }
{
    Unit {
        packet_id: p.packet_id,
        kind: p.payload.kind,
        psn: p.psn,
        mpu: p.payload.mpu,
        fields,
    }
}

// Whether a further piece belongs to the open unit, as far as the two carry the same: not in all fields, so `==` says too much.
#[tactic(auto, unfolding(crate::specs::Unit::agrees))]
pub fn agree(unit: Unit, piece: Unit) -> bool
    ensures { result ≡ agrees unit piece }
{
    unit.kind == piece.kind
        && unit.mpu == piece.mpu
        && unit.fields.movie_fragment == piece.fields.movie_fragment
        && unit.fields.sample == piece.fields.sample
        && unit.fields.item == piece.fields.item
}
