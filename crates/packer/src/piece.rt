// The pieces of a unit: how many there are, what each holds, and how each is numbered.
ghost use Rattle.std.specs.Prelude.{◌≡◌, ◌+◌, ◌<◌, ◌≤◌, length, take, drop};
ghost use Rattle.packer.specs.Pieces.{count_by, max_pieces, indicator_at, counter_at, piece_at};

use mmtp::header::Psn;
use mmtp::payload::Indicator;
use reassembly::join::Piece;
use reassembly::unit::Unit;

// The most pieces of a unit.
pub const MAX_PIECES: usize = 65535;

// How many pieces of at most `m` bytes a unit of `len` bytes has: they are taken away one by one, without a division. The count stops
// as soon as it is above the most pieces of a unit, so a longer unit costs no more.
pub fn count(len: usize, m: usize) -> usize
    ensures { result ≡ count_by max_pieces m len }
{
    let mut left = len;
    // In 16 bits: over a number of 64 the compiler takes sixteen turns at once, and a unit of one piece pays for all of them.
    for n in 1..=MAX_PIECES as u16 {
        if left <= m {
            return usize::from(n);
        }
        left -= m;
    }
    MAX_PIECES + 1
}

// At most `m` bytes from `from`.
pub fn cut(bytes: &[u8], from: usize, m: usize) -> &[u8]
    requires { from ≤ length bytes.now }
    ensures { result.now ≡ take m (drop from bytes.now) }
{
    let rest = &bytes[from..];
    &rest[..m.min(rest.len())]
}

// FI of piece `i` of `n`.
#[tactic(auto, unfolding(crate::specs::Pieces::indicator_at))]
fn indicator_at(n: usize, i: usize) -> Indicator
    requires { i < n }
    ensures { result ≡ indicator_at n i }
{
    if n == 1 {
        Indicator::Whole
    } else if i == 0 {
        Indicator::First
    } else if i + 1 == n {
        Indicator::Last
    } else {
        Indicator::Middle
    }
}

// The counter of piece `i` of `n`: how many pieces come behind it, modulo 256.
#[tactic(auto, unfolding(crate::specs::Pieces::counter_at))]
fn counter_at(n: usize, i: usize) -> u8
    requires { i < n }
    ensures { result ≡ counter_at n i }
{
    ((n - 1 - i) % 256) as u8
}

// Piece `i` of `n`, of `len` bytes: the unit with the packet's own psn, FI and counter.
#[tactic(auto, unfolding(crate::specs::Pieces::with_psn, crate::specs::Pieces::piece_at))]
pub fn number(unit: Unit, n: usize, i: usize, len: usize) -> Piece
    requires { (i < n) × (n ≤ max_pieces) }
    ensures { result ≡ piece_at unit n i len }
{
    let psn = Psn(unit.psn.0.wrapping_add(i as u32));
    Piece {
        unit: Unit { psn, ..unit },
        indicator: indicator_at(n, i),
        counter: counter_at(n, i),
        len,
    }
}
