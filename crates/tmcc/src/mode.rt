// The transmission modes: their rules, and what they make of each slot.
ghost use Rattle.std.specs.Prelude.{◌≡◌, ◌<◌, ◌≤◌, length};
ghost use Rattle.tmcc.specs.Mode.{mode_byte, slot_count, back_off, data_bytes, used, mode_good, modes_good, mode_of, slot_length};

use crate::block::{BLOCK_BYTES, whole};

// Data bytes of a slot by code rate, 1 to 11, each a multiple of 187. Entry 0 is no rate.
const DATA_BYTES: [u16; 12] = [
    0, 1870, 2244, 2805, 3366, 3740, 4114, 4301, 4488, 4675, 4862, 5049,
];

// The data bytes of a live slot at a code rate, 0 where there is no such rate: a dummy slot has none.
pub fn data_bytes(rate: u8) -> u16
    ensures { result ≡ data_bytes rate }
{
    DATA_BYTES.get(usize::from(rate)).copied().unwrap_or(0)
}

// A mode as it stands in the block.
#[derive(Clone, Copy, PartialEq, Eq)]
struct Mode {
    // Modulation (high half) and code rate (low half).
    pair: u8,
    // How many slots it takes.
    count: u8,
    back_off: u8,
}

// What stands in place of a mode that is not used.
const UNUSED: Mode = Mode {
    pair: 0xff,
    count: 0,
    back_off: 0,
};

fn mode_at(block: &[u8; BLOCK_BYTES], k: usize) -> Mode
    requires { k < 8 }
    ensures { (result.pair ≡ mode_byte block.now k) × (result.count ≡ slot_count block.now k) × (result.back_off ≡ back_off block.now k) }
{
    Mode {
        pair: block[1 + 3 * k],
        count: block[2 + 3 * k],
        back_off: block[3 + 3 * k],
    }
}

// A used mode: modulation 1 to 5, code rate 1 to 11, a positive multiple of 5 slots.
fn is_used(mode: Mode) -> bool
    ensures { result ≡ used mode.pair mode.count }
{
    (1..=5).contains(&(mode.pair >> 4))
        && (1..=11).contains(&(mode.pair & 15))
        && 0 < mode.count
        && mode.count % 5 == 0
}

// Whether mode `k` keeps the rules beside the mode before it.
fn is_good(block: &[u8; BLOCK_BYTES], k: usize) -> bool
    requires { k < 8 }
    ensures { result ≡ mode_good block.now k }
{
    let mode = mode_at(block, k);
    if !is_used(mode) {
        return mode == UNUSED;
    }
    if k == 0 {
        return true;
    }
    let before = mode_at(block, k - 1);
    is_used(before) && mode.pair < before.pair
}

// Whether the eight modes keep the rules and take 120 slots in all.
pub fn are_good(block: &[u8]) -> bool
    requires { length block.now ≡ 1178 }
    ensures { result ≡ modes_good block.now }
{
    keep_rules(whole(block))
}

// The same of a block as an array.
pub(crate) fn keep_rules(block: &[u8; BLOCK_BYTES]) -> bool
    ensures { result ≡ modes_good block.now }
{
    let mut slots = 0;
    for k in 0..8 {
        if !is_good(block, k) {
            return false;
        }
        slots += usize::from(mode_at(block, k).count);
    }
    slots == 120
}

// The mode of slot `s`, counted from 0: modes take the slots upward.
fn of_slot(block: &[u8; BLOCK_BYTES], s: usize) -> usize
    ensures { (result ≡ mode_of block.now s) × (result ≤ 8) }
{
    let mut left = s;
    for k in 0..8 {
        let count = usize::from(mode_at(block, k).count);
        if left < count {
            return k;
        }
        left -= count;
    }
    8
}

// The data length of slot `s`: 0 for a dummy.
pub fn slot_length(block: &[u8], s: usize) -> u16
    requires { length block.now ≡ 1178 }
    ensures { result ≡ slot_length block.now s }
{
    length_of(whole(block), s)
}

// The same of a block as an array.
pub(crate) fn length_of(block: &[u8; BLOCK_BYTES], s: usize) -> u16
    ensures { result ≡ slot_length block.now s }
{
    let mode = block[1 + 3 * of_slot(block, s)];
    if s % 5 < usize::from(mode >> 4) {
        data_bytes(mode & 15)
    } else {
        0
    }
}
