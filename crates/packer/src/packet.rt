// One TLV packet, written: its headers, the unit's fields, and the piece's bytes.
ghost use Rattle.std.specs.Prelude.{◌≡◌, ◌+◌, ◌<◌, ◌≤◌, length};
ghost use Rattle.wire.specs.Memory.{pasted};
ghost use Rattle.packer.specs.Packet.{outer_head, payload_type_of, mmtp_head, indicator_bits, fragment_bits, mpu_head};
ghost use Rattle.packer.specs.Packet.{signalling_head, payload_head, timed_fields, fields_written};
ghost use Rattle.packer.specs.Packet.{packet_of};
ghost use Rattle.packer.specs.Writing.{payload_head_bytes, head_bytes, Writable};
ghost use Rattle.mmtp.specs.Unit.{field_bytes};

use mmtp::payload::Indicator;
use mmtp::unit::{Fields, field_bytes};
use reassembly::join::Piece;
use reassembly::unit::Unit;
use wire::field::Field;
use wire::memory::copy_at;

// The number of FI.
#[tactic(auto, unfolding(crate::specs::Packet::indicator_bits))]
fn indicator_bits(fi: Indicator) -> u8
    ensures { (result ≡ indicator_bits fi) × (result < 4) }
{
    fi as u8
}

// FT and timed, in the top five bits.
#[tactic(auto, unfolding(crate::specs::Packet::fragment_bits))]
fn fragment_bits(kind: u8) -> u8
    requires { kind < 4 }
    ensures { (result ≡ fragment_bits kind) × (result < 64) }
{
    match kind {
        0 => 0x00,
        1 => 0x10,
        2 => 0x28,
        _ => 0x20,
    }
}

// The bytes of the payload header.
#[tactic(auto, unfolding(crate::specs::Writing::payload_head_bytes))]
fn payload_head_bytes(kind: u8) -> usize
    ensures { (result ≡ payload_head_bytes kind) × (result ≤ 8) }
{
    if kind == 4 { 2 } else { 8 }
}

// The bytes of a packet before the piece's own.
pub fn head_bytes(kind: u8) -> usize
    ensures { (result ≡ head_bytes kind) × (result ≤ 41) }
{
    19 + payload_head_bytes(kind) + field_bytes(kind)
}

// The TLV header, with the length of what follows it, and the header of the compressed IP flow.
#[tactic(auto, unfolding(crate::specs::Packet::outer_head, wire::specs::Field::bytes_of, wire::specs::Memory::pasted))]
fn outer_head(len: u16, cid: u16, sn: u8) -> [u8; 7]
    requires { (cid < 4096) × (sn < 16) }
    ensures { result ≡ outer_head len cid sn }
{
    let mut head = [0x7f, 3, 0, 0, 0, 0, 0x61];
    len.write(&mut head, 2);
    (cid * 16 + u16::from(sn)).write(&mut head, 4);
    head
}

#[tactic(auto, unfolding(crate::specs::Packet::payload_type_of))]
fn payload_type(kind: u8) -> u8
    ensures { result ≡ payload_type_of kind }
{
    if kind == 4 { 2 } else { 0 }
}

// The MMTP header.
#[tactic(auto, unfolding(crate::specs::Packet::mmtp_head, wire::specs::Field::bytes_of, wire::specs::Memory::pasted))]
fn mmtp_head(unit: Unit) -> [u8; 12]
    ensures { result ≡ mmtp_head unit.kind unit.packet_id unit.psn.0 }
{
    let mut head = [0; 12];
    head[1] = payload_type(unit.kind);
    unit.packet_id.write(&mut head, 2);
    unit.psn.0.write(&mut head, 8);
    head
}

// The header of an MPU payload, with the length of what follows it.
#[tactic(auto, unfolding(crate::specs::Packet::mpu_head, wire::specs::Field::bytes_of, wire::specs::Memory::pasted))]
fn mpu_head(p: Piece, len: u16) -> [u8; 8]
    requires { p.unit.kind < 4 }
    ensures { result ≡ mpu_head len p.unit.kind p.indicator p.counter p.unit.mpu }
{
    let mut head = [0; 8];
    len.write(&mut head, 0);
    head[2] = fragment_bits(p.unit.kind) + indicator_bits(p.indicator) * 2;
    head[3] = p.counter;
    p.unit.mpu.write(&mut head, 4);
    head
}

// The header of a signalling payload.
#[tactic(auto, unfolding(crate::specs::Packet::signalling_head))]
fn signalling_head(p: Piece) -> [u8; 2]
    ensures { result ≡ signalling_head p.indicator p.counter }
{
    [indicator_bits(p.indicator) * 64, p.counter]
}

// The fields of a piece of kind 2.
#[tactic(auto, unfolding(crate::specs::Packet::timed_fields, wire::specs::Field::bytes_of, wire::specs::Memory::pasted))]
fn timed_fields(f: Fields) -> [u8; 14]
    ensures { result ≡ timed_fields f }
{
    let mut fields = [0; 14];
    f.movie_fragment.write(&mut fields, 0);
    f.sample.write(&mut fields, 4);
    f.offset.write(&mut fields, 8);
    fields[12] = f.priority;
    fields[13] = f.dependency;
    fields
}

// Writes the payload header, before a data unit of `len` bytes.
#[tactic(auto, unfolding(crate::specs::Packet::payload_head, crate::specs::Writing::payload_head_bytes))]
fn write_payload_head(output: &mut [u8], at: usize, p: Piece, len: u16)
    requires { (at + payload_head_bytes p.unit.kind ≤ length output.old) × (p.unit.kind ≤ 4) × (len ≤ 1414) }
    ensures { output.new
        ≡ pasted output.old at (payload_head p len) (payload_head_bytes p.unit.kind) }
{
    if p.unit.kind == 4 {
        copy_at(output, at, &signalling_head(p));
    } else {
        copy_at(output, at, &mpu_head(p, 6 + len));
    }
}

// Writes the fields that each piece of a unit begins with.
#[tactic(auto, unfolding(crate::specs::Packet::fields_written, crate::specs::Packet::timed_fields, mmtp::specs::Unit::field_bytes, wire::specs::Field::bytes_of))]
fn write_fields(output: &mut [u8], at: usize, unit: Unit)
    requires { at + field_bytes unit.kind ≤ length output.old }
    ensures { output.new ≡ pasted output.old at (fields_written unit.kind unit.fields) (field_bytes unit.kind) }
{
    match unit.kind {
        2 => copy_at(output, at, &timed_fields(unit.fields)),
        3 => unit.fields.item.write(output, at),
        _ => {}
    }
}

// The packet of a piece, at `at`.
#[tactic(auto, using(crate::proofs::Lengths::sizes))]
pub fn write_packet(output: &mut [u8], at: usize, cid: u16, sn: u8, p: Piece, bytes: &[u8])
    requires { Writable (length output.old) at cid sn p (length bytes.now) }
    ensures { output.new
        ≡ pasted output.old at (packet_of cid sn p bytes.now)
        (head_bytes p.unit.kind + length bytes.now) }
{
    let head = payload_head_bytes(p.unit.kind);
    let len = field_bytes(p.unit.kind) + bytes.len();
    copy_at(output, at, &outer_head((15 + head + len) as u16, cid, sn));
    copy_at(output, at + 7, &mmtp_head(p.unit));
    write_payload_head(output, at + 19, p, len as u16);
    write_fields(output, at + 19 + head, p.unit);
    copy_at(output, at + head_bytes(p.unit.kind), bytes);
}
