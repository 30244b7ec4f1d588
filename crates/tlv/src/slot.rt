// Whether a slot is sound.
ghost use Rattle.std.specs.Prelude.{◌≡◌};
ghost use Rattle.tlv.specs.Slot.{sound, last_pointer};

// The pointer that says "none", in the control block and to C.
pub const NONE: u16 = 0xffff;

// The last pointer of a slot whose packets from the top pointer end at `end`; `end` is the top pointer if none is complete.
fn last_pointer(end: usize) -> usize
    ensures { result ≡ last_pointer end }
{
    if end == 0 { usize::from(NONE) } else { end }
}

pub fn is_sound(s: &[u8], top: u16, last: u16) -> bool
    ensures { result ≡ sound s.now top last }
{
    if top == NONE {
        return last == NONE || usize::from(last) == s.len();
    }
    let t = usize::from(top);
    if s.len() <= t {
        return false;
    }
    match crate::packet::walk(s, t) {
        None => false,
        Some(end) => usize::from(last) == last_pointer(end),
    }
}
