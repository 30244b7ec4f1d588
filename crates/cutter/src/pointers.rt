// The pointers of a slot, by a walk over the packets of the run.
ghost use Rattle.std.specs.Prelude.{◌≡◌, [], ◌+◌, ◌≤◌, ◌<◌, length};
ghost use Rattle.tlv.specs.Packet.{cut};
ghost use Rattle.cutter.specs.Pointers.{top_with, last_with, pointers_of};

use tlv::slot::NONE;
use tmcc::layout::Pointers;

// The top pointer so far, and a packet that starts at `start`.
#[tactic(auto, using(std::proofs::lemmas::Bool::Decides::nat_tests), unfolding(crate::specs::Pointers::top_with, crate::specs::Pointers::in_slot))]
fn top_with(top: u16, from: usize, l: usize, start: usize) -> u16
    requires { (start < from + l) × (l < 65536) }
    ensures { result ≡ top_with top from l start }
{
    if top != NONE || start < from {
        top
    } else {
        (start - from) as u16
    }
}

// The last pointer so far, and a packet that ends at `end`.
#[tactic(auto, using(std::proofs::lemmas::Bool::Decides::nat_tests), unfolding(crate::specs::Pointers::last_with, crate::specs::Pointers::in_slot))]
fn last_with(last: u16, from: usize, l: usize, end: usize) -> u16
    requires { (0 < end) × (l < 65536) }
    ensures { result ≡ last_with last from l end }
{
    if end <= from || l < end - from {
        last
    } else {
        (end - from) as u16
    }
}

// The pointers of the slot of `l` bytes that begins at `from`.
pub fn find(run: &[u8], from: usize, l: usize) -> Pointers
    requires { ((cut run.now).tail ≡ []) × (from + l ≤ length run.now) × (l < 65535) }
    ensures { result ≡ pointers_of run.now from l }
{
    let to = from + l;
    let mut top = NONE;
    let mut last = NONE;
    let mut at = 0;
    // A step is a packet, not a place.
    while at < to {
        let end = at + tlv::packet::total_at(run, at);
        top = top_with(top, from, l, at);
        last = last_with(last, from, l, end);
        at = end;
    }
    Pointers(top, last)
}
