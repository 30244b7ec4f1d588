// Parts of a slice, and copying between slices and within one memory. Copies are loops: the library's would ask programs in C for
// `memmove`, and include/ixohuemil.h promises that the archive needs only `memcpy` and `memset`.
ghost use Rattle.std.specs.Prelude.{◌≡◌, ◌+◌, ◌-◌, ◌≤◌, length, drop};
ghost use Rattle.wire.specs.Memory.{pasted, part_of};

// The `len` bytes from `start`, or an empty part where one of them lies outside.
pub fn part(s: &[u8], start: usize, len: usize) -> &[u8]
    ensures { result.now ≡ part_of s.now start len }
{
    match s.get(start..) {
        Some(rest) if len <= rest.len() => &rest[..len],
        _ => &[],
    }
}

// The bytes of `src` come to stand in `dst` from `at` on.
pub fn copy_at(dst: &mut [u8], at: usize, src: &[u8])
    requires { at + length src.now ≤ length dst.old }
    ensures { dst.new ≡ pasted dst.old at src.now (length src.now) }
{
    for i in 0..src.len() {
        dst[at + i] = src[i];
    }
}

// The `n` bytes at `from` come to stand at `to`, which is not above.
pub fn move_down(mem: &mut [u8], to: usize, from: usize, n: usize)
    requires { (to ≤ from) × (from + n ≤ length mem.old) }
    ensures { mem.new ≡ pasted mem.old to (drop from mem.old) n }
{
    for i in 0..n {
        mem[to + i] = mem[from + i];
    }
}

// How far it is from `start` to `end`; 0 where that lies before.
pub fn distance(start: usize, end: usize) -> usize
    ensures { result ≡ end - start }
{
    end.saturating_sub(start)
}
