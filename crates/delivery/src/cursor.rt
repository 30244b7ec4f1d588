// What next comes to in a slot: what a packet has yet to give, the slot's note, its packets, its tail.
ghost use Rattle.std.specs.Prelude.{◌≡◌, drop};
ghost use Rattle.tlv.specs.Packet.{too_long};
ghost use Rattle.delivery.specs.Found.{as_advanced};
ghost use Rattle.delivery.specs.Cursor.{tail_advanced, slot_advanced, advanced_of};

use intake::held::Cursor;
use tlv::note::SlotNote;

// What next comes to.
#[derive(Clone, Copy)]
pub enum Found {
    // A note of the slot.
    Note(u8),
    // A TLV packet, from where to where in packet memory.
    Packet(usize, usize),
    // A tail that is held, where it starts and how long it is.
    Tail(usize, usize),
    Done,
}

// What the cursor comes to, and the cursor past it.
#[derive(Clone, Copy)]
pub struct Advanced {
    pub found: Found,
    pub cursor: Cursor,
}

// Whether the total of the packet at `at` is known and above what is kept.
fn is_too_long(s: &[u8], at: usize) -> bool
    ensures { result ≡ too_long (drop at s.now) }
{
    at <= s.len() && tlv::packet::too_long(s, at)
}

// The tail of the slot: held, or noted as too long.
#[tactic(auto, unfolding(crate::specs::Cursor::tail_advanced))]
fn advance_tail(s: &[u8], at: usize, end: usize) -> Advanced
    ensures { as_advanced result ≡ tail_advanced s.now at end }
{
    let found = if is_too_long(s, at) {
        Found::Note(SlotNote::TooLong.into())
    } else {
        Found::Tail(at, wire::memory::distance(at, end))
    };
    Advanced {
        found,
        cursor: Cursor::default(),
    }
}

// A packet of the slot, or its tail.
#[tactic(auto, unfolding(crate::specs::Cursor::slot_advanced))]
fn advance_slot(c: Cursor, memory: &[u8]) -> Advanced
    ensures { as_advanced result ≡ slot_advanced c memory.now }
{
    let s = wire::memory::part(memory, 0, c.end);
    match tlv::packet::packet_at(s, c.at) {
        Some(to) => Advanced {
            found: Found::Packet(c.at, to),
            cursor: Cursor { at: to, ..c },
        },
        None => advance_tail(s, c.at, c.end),
    }
}

pub fn advance(c: Cursor, memory: &[u8]) -> Advanced
    ensures { as_advanced result ≡ advanced_of c memory.now }
{
    if c.note != 0 {
        return Advanced {
            found: Found::Note(c.note),
            cursor: Cursor { note: 0, ..c },
        };
    }
    if c.packet != 0 {
        return Advanced {
            found: Found::Packet(0, c.packet),
            cursor: Cursor { packet: 0, ..c },
        };
    }
    if c.reading {
        return advance_slot(c, memory);
    }
    Advanced {
        found: Found::Done,
        cursor: c,
    }
}
