// Words that are each at most what may stand in their place.
ghost use Rattle.std.specs.Prelude.{◌≡◌};
ghost use Rattle.calls.specs.Bounds.{are_within};

// The most of a field of 8, 16, 32 or 64 bits.
pub(crate) const MOST_8: u64 = u8::MAX as u64;

pub(crate) const MOST_16: u64 = u16::MAX as u64;

pub(crate) const MOST_32: u64 = u32::MAX as u64;

pub(crate) const MOST_64: u64 = u64::MAX;

// Whether each word of `t` is at most the one of `most` at its place. `t` may have more words, not fewer. By place: over a
// constant `most` the compiler unrolls this loop, and not that of a `zip`, which takes ten instructions a word.
pub(crate) fn are_within(t: &[u64], most: &[u64]) -> bool
    ensures { result ≡ are_within t.now most.now }
{
    if t.len() < most.len() {
        return false;
    }
    for k in 0..most.len() {
        if most[k] < t[k] {
            return false;
        }
    }
    true
}
