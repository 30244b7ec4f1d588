// Reads a capture on standard input and prints its lines.
#![tactic(auto)]

mod pump;

use capture::finish::{begin, finish};
use wire::memory::part;

// The descriptor of standard output.
const STDOUT_FILENO: i32 = 1;

// The turns are counted up to a number that no run reaches.
fn main() {
    let mut packet = [0u8; 21433];
    let mut collecting = io::large_buffer();
    let mut command = [0u8; 65538];
    let mut block = io::large_buffer();
    let mut out = io::large_buffer();
    let mut words = [0u64; 751];
    let mut p = pump::fresh(begin(&mut words));
    for _ in 0..u64::MAX {
        if !pump::goes_on(p) {
            break;
        }
        p = pump::refill(p, &mut block);
        p = pump::feed_on(
            p,
            &block,
            &mut command,
            &mut words,
            &mut packet,
            &mut collecting,
            &mut out,
        );
        p = pump::tell(p, io::write_all(STDOUT_FILENO, part(&out, 0, p.written)));
        p = pump::pour_on(p, &mut words, &packet, &mut collecting, &mut out);
        p = pump::tell(p, io::write_all(STDOUT_FILENO, part(&out, 0, p.written)));
    }
    let end = finish(p.session.tally, &mut out, 0);
    io::write_all(STDOUT_FILENO, part(&out, 0, end));
}
