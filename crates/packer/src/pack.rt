// The packer's call: refusals 70 to 74, or a unit's packets one behind the other.
ghost use Rattle.std.specs.Prelude.{◌≡◌, ◌+◌, ◌*◌, ◌%◌, ◌<◌, ◌≤◌, length};
ghost use Rattle.packer.specs.Pieces.{max_pieces};
ghost use Rattle.packer.specs.Packed.{as_packed};
ghost use Rattle.packer.specs.Packer.{packed, pack_of};
ghost use Rattle.packer.specs.Writing.{Planned, planned, planned_run, Writes};

use crate::{packet, piece};
use reassembly::unit::Unit;
use refusal::Refusal;

// What the packets of a unit have in common: the unit, CID, the first SN, and `n` pieces of at most `m` bytes.
#[derive(Clone, Copy)]
struct Plan {
    unit: Unit,
    cid: u16,
    sn: u8,
    m: usize,
    n: usize,
}

// The SN of packet `i`.
fn sn_at(sn: u8, i: usize) -> u8
    requires { i < max_pieces }
    ensures { (result ≡ (sn + i) % 16) × (result < 16) }
{
    ((usize::from(sn) + i) % 16) as u8
}

// Packet `i`, written at `at`; where it ends.
fn write_piece(plan: Plan, i: usize, bytes: &[u8], output: &mut [u8], at: usize) -> usize
    requires planned { Planned plan (length bytes.now) (length output.old) }
    requires i_lt_n { (i < plan.n) × (at + length (planned plan i bytes.now) ≤ length output.old) }
    ensures { Writes (planned plan i bytes.now) at result output.old output.new }
{
    let bytes = piece::cut(bytes, i * plan.m, plan.m);
    let p = piece::number(plan.unit, plan.n, i, bytes.len());
    packet::write_packet(output, at, plan.cid, sn_at(plan.sn, i), p, bytes);
    at + packet::head_bytes(plan.unit.kind) + bytes.len()
}

// The packets, one behind the other.
fn write_run(plan: Plan, bytes: &[u8], output: &mut [u8])
    requires { Planned plan (length bytes.now) (length output.old) }
    ensures { output.new ≡ packed (planned_run plan bytes.now) output.old }
{
    let mut at = 0;
    for i in 0..plan.n {
        at = write_piece(plan, i, bytes, output, at);
    }
}

// Packs a unit of these bytes, whose first packet has the unit's psn, in pieces of at most `m` bytes; how many bytes are written.
pub fn pack(
    unit: Unit,
    cid: u16,
    sn: u8,
    m: usize,
    bytes: &[u8],
    output: &mut [u8],
) -> Result<usize, Refusal>
    ensures { (as_packed result, output.new) ≡ pack_of unit cid sn m bytes.now output.old }
{
    if m == 0 || 1400 < m {
        return Err(Refusal::PieceSize);
    }
    if 4 < unit.kind {
        return Err(Refusal::Kind);
    }
    let n = piece::count(bytes.len(), m);
    if piece::MAX_PIECES < n {
        return Err(Refusal::PieceCount);
    }
    let len = n * packet::head_bytes(unit.kind) + bytes.len();
    if output.len() < len {
        return Err(Refusal::PacketOutput);
    }
    if 4095 < cid {
        return Err(Refusal::PacketContextId);
    }
    let plan = Plan {
        unit,
        cid,
        sn,
        m,
        n,
    };
    write_run(plan, bytes, output);
    Ok(len)
}
