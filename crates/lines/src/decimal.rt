// A number in decimal, written to a slice. By hand: the text is promised to the byte, and what formatting writes is not.
ghost use Rattle.std.specs.Prelude.{◌≡◌, ◌+◌, ◌*◌, ◌≤◌, ◌<◌, ◌%◌, length};
ghost use Rattle.lines.specs.Decimal.{digit, decimal, pair, four, without_groups, groups, last_groups};
ghost use Rattle.lines.specs.Text.{wrote};

// The character of a digit.
fn character(d: u64) -> u8
    requires { d < 10 }
    ensures { result ≡ digit d }
{
    b'0' + d as u8
}

// The two digits of `d`.
fn put_pair(out: &mut [u8], at: usize, d: u64) -> usize
    requires { (d < 100) × (at + 2 ≤ length out.old) }
    ensures { (result, out.new) ≡ wrote out.old at (pair d) }
{
    out[at] = character(d / 10);
    out[at + 1] = character(d % 10);
    at + 2
}

// The four digits of `d`.
fn put_four(out: &mut [u8], at: usize, d: u64) -> usize
    requires { (d < 10000) × (at + 4 ≤ length out.old) }
    ensures { (result, out.new) ≡ wrote out.old at (four d) }
{
    let half = put_pair(out, at, d / 100);
    put_pair(out, half, d % 100)
}

// A number of one or two digits.
fn put_two(out: &mut [u8], at: usize, n: u64) -> usize
    requires { (n < 100) × (at + length (decimal n) ≤ length out.old) }
    ensures { (result, out.new) ≡ wrote out.old at (decimal n) }
{
    if n < 10 {
        out[at] = character(n);
        return at + 1;
    }
    put_pair(out, at, n)
}

// A number of one to four digits.
fn put_short(out: &mut [u8], at: usize, n: u64) -> usize
    requires { (n < 10000) × (at + length (decimal n) ≤ length out.old) }
    ensures { (result, out.new) ≡ wrote out.old at (decimal n) }
{
    if n < 100 {
        return put_two(out, at, n);
    }
    let next = put_two(out, at, n / 100);
    put_pair(out, next, n % 100)
}

// How many groups of four digits stand behind the first one to four.
fn count_groups(n: u64) -> usize
    requires { 10000 ≤ n }
    ensures { result ≡ groups 4 n }
{
    if n < 100_000_000 {
        return 1;
    }
    if n < 1_000_000_000_000 {
        return 2;
    }
    if n < 10_000_000_000_000_000 {
        return 3;
    }
    4
}

// `n` without its last `k` groups.
fn without_groups(n: u64, k: usize) -> u64
    requires { k ≤ 4 }
    ensures { result ≡ without_groups n k }
{
    match k {
        0 => n,
        1 => n / 10_000,
        2 => n / 100_000_000,
        3 => n / 1_000_000_000_000,
        _ => n / 10_000_000_000_000_000,
    }
}

// The last `k` groups.
fn put_groups(out: &mut [u8], at: usize, n: u64, k: usize) -> usize
    requires { (k ≤ 4) × (at + 4 * k ≤ length out.old) }
    ensures { (result, out.new) ≡ wrote out.old at (last_groups n k) }
{
    let mut end = at;
    for left in (0..k).rev() {
        end = put_four(out, end, without_groups(n, left) % 10000);
    }
    end
}

// Writes `n` from `at` on; answers the place behind it.
pub fn put_decimal(out: &mut [u8], at: usize, n: u64) -> usize
    requires { at + length (decimal n) ≤ length out.old }
    ensures { (result, out.new) ≡ wrote out.old at (decimal n) }
{
    if n < 10000 {
        return put_short(out, at, n);
    }
    let k = count_groups(n);
    let next = put_short(out, at, without_groups(n, k));
    put_groups(out, next, n, k)
}
