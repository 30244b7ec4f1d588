// What a sound slot does to held bytes.
ghost use Rattle.std.specs.Prelude.{◌≡◌, ◌-◌, ◌<◌, ◌++◌, get_or};
ghost use Rattle.tlv.specs.Held.{held_total, continuation_of, end_within, end_beyond};

use crate::note::SlotNote;
use crate::packet::MAX_PACKET;
use crate::slot::NONE;

// What becomes of the packet whose bytes are held: three cases, each with its name, and so no Result.
#[derive(Clone, Copy, Debug, PartialEq, Eq)]
pub enum Continuation {
    // It is dropped, with this note.
    Dropped(SlotNote),
    // It ends in the slot, before this place; 0 if nothing was held.
    Ends(usize),
    // The whole slot belongs to it.
    GoesOn,
}

// Byte `i` of the held bytes with the slot behind them; 0 past both.
fn byte_across(held: &[u8], s: &[u8], i: usize) -> u8
    ensures { result ≡ get_or (held.now ++ s.now) i 0 }
{
    if i < held.len() {
        return held[i];
    }
    let j = i - held.len();
    if j < s.len() { s[j] } else { 0 }
}

// The total of the held packet; its header is completed from the slot.
fn total_across(held: &[u8], s: &[u8]) -> usize
    ensures { (result ≡ held_total held.now s.now) × (result < 65540) }
{
    4 + usize::from(u16::from_be_bytes([byte_across(held, s, 2), byte_across(held, s, 3)]))
}

// No packet starts in the slot: the held one must reach its end, and `last` must say whether it ends there.
fn without_top(end: usize, len: usize, last: usize) -> Continuation
    ensures { result ≡ end_beyond end len last }
{
    if end == len && last == len {
        return Continuation::Ends(end);
    }
    if end <= len || last == len {
        return Continuation::Dropped(SlotNote::Misfit);
    }
    Continuation::GoesOn
}

// The first packet starts at `t`: the held one must end there.
fn before_top(end: usize, t: usize) -> Continuation
    ensures { result ≡ end_within end t }
{
    if end == t {
        Continuation::Ends(end)
    } else {
        Continuation::Dropped(SlotNote::Misfit)
    }
}

// What a sound slot does to the held bytes.
pub fn resume(held: &[u8], s: &[u8], top: u16, last: u16) -> Continuation
    ensures { result ≡ continuation_of held.now s.now top last }
{
    if held.is_empty() {
        return before_top(0, usize::from(top));
    }
    let total = total_across(held, s);
    if MAX_PACKET < total {
        return Continuation::Dropped(SlotNote::TooLong);
    }
    let end = total.saturating_sub(held.len());
    if top == NONE {
        without_top(end, s.len(), usize::from(last))
    } else {
        before_top(end, usize::from(top))
    }
}
