// A slot in packet memory: the held packet goes on or is dropped, and next reads from the top pointer.
ghost use Rattle.std.specs.Prelude.{◌≡◌, ◌+◌, ◌≤◌, ◌<◌, length, true};
ghost use Rattle.tlv.specs.Slot.{sound};
ghost use Rattle.tlv.specs.Held.{continuation_of};
ghost use Rattle.intake.specs.Slot.{packet_memory, searching, holding, noted, cursor_from, reading_from};
ghost use Rattle.intake.specs.Slot.{held_bytes, held_len, moved_mem, continued_mem, resumed_as, resumed_of, settled_of, intake_of, lost_of};
ghost use Rattle.intake.specs.Early.{free_part};

use crate::held::{Cursor, Held, Intake};
use tlv::held::Continuation;
use tlv::note::SlotNote;
use tmcc::layout::Pointers;

// Where the slot stands in packet memory, behind the longest held packet.
pub const SLOT_AREA: usize = 16384;

// The longest slot.
pub const MAX_SLOT: usize = 5049;

// A cursor over the packets from the top pointer of a slot of `len` bytes, after a note and a completed packet.
#[tactic(auto, unfolding(crate::specs::Slot::cursor_from))]
fn cursor_from(note: u8, packet: usize, top: u16, len: usize) -> Cursor
    requires { len ≤ 5049 }
    ensures { result ≡ cursor_from note packet top len }
{
    if top == tlv::slot::NONE {
        return Cursor {
            note,
            packet,
            ..Cursor::default()
        };
    }
    Cursor {
        note,
        packet,
        reading: true,
        at: SLOT_AREA + top as usize,
        end: SLOT_AREA + len,
    }
}

// The packets from the top pointer are read; nothing is held until their tail is.
fn read_from(note: u8, packet: usize, top: u16, len: usize) -> Intake
    requires { len ≤ 5049 }
    ensures { result ≡ reading_from note packet top len }
{
    Intake {
        held: Held::default(),
        cursor: cursor_from(note, packet, top, len),
    }
}

// Searching, and nothing to read but a note; 0 for none.
fn searching(note: u8) -> Intake
    ensures { result ≡ record { held = searching; cursor = noted note } }
{
    Intake {
        held: Held::default(),
        cursor: Cursor {
            note,
            ..Cursor::default()
        },
    }
}

// How many bytes are held; none where they lie outside packet memory.
fn held_len(held: Held, packet: &[u8]) -> usize
    ensures { result ≡ held_len held packet.now }
{
    wire::memory::part(packet, held.start, held.len).len()
}

// The held bytes come to stand from byte 0.
fn move_held(held: Held, packet: &mut [u8]) -> usize
    ensures { (result ≡ held_len held packet.old) × (packet.new ≡ moved_mem held packet.old) }
{
    let n = held_len(held, packet);
    if n == 0 {
        return n;
    }
    wire::memory::move_down(packet, 0, held.start, n);
    n
}

// The held bytes come to stand from byte 0, and the first `k` bytes of the slot follow them.
fn continue_packet(held: Held, packet: &mut [u8], bytes: &[u8], k: usize)
    requires { (k ≤ length bytes.now) × (held_len held packet.old + k ≤ length packet.old) }
    ensures { packet.new ≡ continued_mem held packet.old bytes.now k }
{
    let n = move_held(held, packet);
    wire::memory::copy_at(packet, n, &bytes[..k]);
}

// What becomes of the held packet.
fn resume(held: Held, packet: &[u8], bytes: &[u8], t: Pointers) -> Continuation
    ensures { result ≡ continuation_of (held_bytes held packet.now) bytes.now t.0 t.1 }
{
    let s = wire::memory::part(packet, held.start, held.len);
    tlv::held::resume(s, bytes, t.0, t.1)
}

// The held packet ends in the slot; the packets from the top pointer follow it.
#[tactic(auto, unfolding(crate::specs::Slot::resumed_as))]
fn end_packet(n: usize, end: usize, top: u16, len: usize) -> Intake
    requires { (n + end < 18446744073709551616) × (len ≤ 5049) }
    ensures { result ≡ resumed_as (Continuation.Ends end) n top len }
{
    let packet = if n == 0 { 0 } else { n + end };
    Intake {
        held: Held {
            on: top == tlv::slot::NONE,
            ..Held::default()
        },
        cursor: cursor_from(0, packet, top, len),
    }
}

// The held packet goes on past the slot.
fn extend_packet(n: usize, len: usize) -> Intake
    requires { n + len < 18446744073709551616 }
    ensures { result ≡ record { held = holding 0 (n + len); cursor = noted 0 } }
{
    Intake {
        held: Held {
            on: true,
            start: 0,
            len: n + len,
        },
        cursor: Cursor::default(),
    }
}

// A sound slot comes to held bytes.
fn resume_slot(held: Held, packet: &mut [u8], bytes: &[u8], t: Pointers) -> Intake
    requires { (packet_memory ≤ length packet.old) × (length bytes.now ≤ 5049) × (sound bytes.now t.0 t.1 ≡ true) }
    ensures { (result, packet.new) ≡ resumed_of held packet.old bytes.now t }
{
    let len = bytes.len();
    let n = held_len(held, packet);
    match resume(held, packet, bytes, t) {
        Continuation::Dropped(note) => read_from(u8::from(note), 0, t.0, len),
        Continuation::Ends(end) => {
            continue_packet(held, packet, bytes, end);
            end_packet(n, end, t.0, len)
        }
        Continuation::GoesOn => {
            continue_packet(held, packet, bytes, len);
            extend_packet(n, len)
        }
    }
}

// How many of the first `n` bytes of the slot's place no held byte stands in; none where the held bytes are not in that place alone.
#[tactic(auto, unfolding(crate::specs::Early::free_part))]
fn free_part(held: Held, n: usize) -> usize
    ensures { result ≡ free_part held n }
{
    if !held.on {
        return n;
    }
    if held.start < SLOT_AREA || SLOT_AREA < held.len {
        return 0;
    }
    let k = held.start - SLOT_AREA;
    n.min(k)
}

// What a slot does, before it is copied.
fn settle(held: Held, packet: &mut [u8], bytes: &[u8], t: Pointers) -> Intake
    requires { (packet_memory ≤ length packet.old) × (length bytes.now ≤ 5049) }
    ensures { (result, packet.new) ≡ settled_of held packet.old bytes.now t }
{
    if !tlv::slot::is_sound(bytes, t.0, t.1) {
        return searching(u8::from(SlotNote::Unsound));
    }
    if held.on {
        return resume_slot(held, packet, bytes, t);
    }
    read_from(0, 0, t.0, bytes.len())
}

// An own live slot with its bytes. What can be copied of it is copied first: then its packets are walked in the cache.
pub fn take(held: Held, packet: &mut [u8], bytes: &[u8], t: Pointers) -> Intake
    requires { (packet_memory ≤ length packet.old) × (length bytes.now ≤ 5049) }
    ensures { (result, packet.new) ≡ intake_of held packet.old bytes.now t }
{
    let (early, late) = bytes.split_at(free_part(held, bytes.len()));
    wire::memory::copy_at(packet, SLOT_AREA, early);
    let taken = settle(held, packet, bytes, t);
    wire::memory::copy_at(packet, SLOT_AREA + early.len(), late);
    taken
}

// A lost one: searching, with a note if it wasn't.
#[tactic(auto, unfolding(crate::specs::Slot::lost_of))]
pub fn lose(before: Held) -> Intake
    ensures { result ≡ lost_of before }
{
    let lost = u8::from(SlotNote::Lost);
    let note = if before.on { lost } else { 0 };
    searching(note)
}
