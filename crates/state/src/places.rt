// The receiver's state in words that the caller lends: where its parts stand, and the frame's slots.
ghost use Rattle.std.specs.Prelude.{◌≡◌, ◌+◌, ◌*◌, ◌≤◌, ◌<◌, length};
ghost use Rattle.tmcc.specs.Layout.{as_layout};
ghost use Rattle.state.specs.State.{with_frame};
ghost use Rattle.state.specs.Words.{state_words, pointers_in, length_in, own_in, state_in, Sets};
ghost use Rattle.state.specs.Words.{SlotPut, LayoutPut};

use tmcc::layout::{Layout, Pointers, Slot};

// What start keeps of what it was given.
pub const CONFIG: usize = 0;
// The next slot of the frame, counted from 0; 120 where none is due.
pub const AT: usize = 20;
// Whether next is owed.
pub const OWED: usize = 21;

pub const HELD: usize = 22;

pub const CURSOR: usize = 25;

pub const QUEUE: usize = 30;
// The states of the sixteen packet_ids.
pub const CHANNELS: usize = 47;
// The frame's 120 slots: of each the two pointers, the data length, and whether it is an own live one.
const SLOTS: usize = 271;

pub const STATE_WORDS: usize = 751;

// The next slot of the frame.
#[tactic(auto, unfolding(crate::specs::Words::state_in))]
pub fn due(t: &[u64]) -> u64
    requires { state_words ≤ length t.now }
    ensures { result ≡ (state_in t.now).frame.at }
{
    t[AT]
}

#[tactic(auto, unfolding(crate::specs::Words::state_in, wire::specs::Words::flag_of))]
pub fn is_owed(t: &[u64]) -> bool
    requires { state_words ≤ length t.now }
    ensures { result ≡ (state_in t.now).owed }
{
    t[OWED] != 0
}

#[tactic(auto, unfolding(crate::specs::Words::pointers_in))]
pub fn pointers_at(t: &[u64], s: usize) -> Pointers
    requires { (s < 120) × (state_words ≤ length t.now) }
    ensures { result ≡ pointers_in t.now s }
{
    let i = SLOTS + 4 * s;
    Pointers((t[i] % 65536) as u16, (t[i + 1] % 65536) as u16)
}

#[tactic(auto, unfolding(crate::specs::Words::length_in))]
pub fn length_at(t: &[u64], s: usize) -> u64
    requires { (s < 120) × (state_words ≤ length t.now) }
    ensures { result ≡ length_in t.now s }
{
    t[SLOTS + 4 * s + 2]
}

#[tactic(auto, unfolding(crate::specs::Words::own_in, wire::specs::Words::flag_of))]
pub fn is_own(t: &[u64], s: usize) -> bool
    requires { (s < 120) × (state_words ≤ length t.now) }
    ensures { result ≡ own_in t.now s }
{
    t[SLOTS + 4 * s + 3] != 0
}

fn put_slot(t: &mut [u64], s: usize, slot: Slot)
    requires { (s < 120) × (state_words ≤ length t.old) }
    ensures { SlotPut t.old t.new s slot.pointers slot.length slot.own }
{
    let i = SLOTS + 4 * s;
    t[i] = slot.pointers.0 as u64;
    t[i + 1] = slot.pointers.1 as u64;
    t[i + 2] = slot.length as u64;
    t[i + 3] = slot.own as u64;
}

fn put_slots(t: &mut [u64], layout: Layout)
    requires { state_words ≤ length t.old }
    ensures { LayoutPut t.old t.new (as_layout layout) }
{
    for s in 0..120 {
        put_slot(t, s, layout.slots[s]);
    }
}

// Another frame, of which slot 1 is due.
pub fn put_frame(t: &mut [u64], layout: Layout)
    requires { state_words ≤ length t.old }
    ensures { Sets t.old t.new (with_frame (state_in t.old) (record { layout = as_layout layout; at = 0 })) }
{
    put_slots(t, layout);
    t[AT] = 0;
}
