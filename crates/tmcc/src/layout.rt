// The frame's layout: pointers, data length and ownership of each of its 120 slots.
ghost use Rattle.std.specs.Prelude.{◌≡◌, ◌<◌, length};
ghost use Rattle.std.specs.List.{list_any};
ghost use Rattle.tmcc.specs.Layout.{pointers_at, slot_at, layout_of, blank_layout, as_layout};

use crate::block::{BLOCK_BYTES, whole};
use crate::{mode, stream};
use std::array;
use wire::field::Field;

// Top pointer and last pointer.
#[derive(Clone, Copy)]
pub struct Pointers(pub u16, pub u16);

#[derive(Clone, Copy)]
pub struct Slot {
    pub pointers: Pointers,
    // Data bytes; 0 for a dummy.
    pub length: u16,
    // Live, and of the chosen stream.
    pub own: bool,
}

#[derive(Clone, Copy)]
pub struct Layout {
    pub slots: [Slot; 120],
}

fn pointers_at(block: &[u8; BLOCK_BYTES], s: usize) -> Pointers
    requires { s < 120 }
    ensures { result ≡ pointers_at block.now s }
{
    Pointers(u16::read(block, 153 + 4 * s), u16::read(block, 155 + 4 * s))
}

// The slot `s` that a block gives, as the chosen stream's where its relative stream is `own`.
fn slot_at(block: &[u8; BLOCK_BYTES], own: u8, s: usize) -> Slot
    requires { s < 120 }
    ensures { result ≡ slot_at block.now own s }
{
    let length = mode::length_of(block, s);
    Slot {
        pointers: pointers_at(block, s),
        length,
        own: 0 < length && stream::of_slot(block, s) == own,
    }
}

// No frame: all slots dummy.
pub fn blank() -> Layout
    ensures { as_layout result ≡ blank_layout }
{
    let dummy = Slot {
        pointers: Pointers(0, 0),
        length: 0,
        own: false,
    };
    Layout {
        slots: [dummy; 120],
    }
}

// The layout that a block gives, with the slots of relative stream `own` as the chosen stream's.
pub fn of_block(block: &[u8], own: u8) -> Layout
    requires { length block.now ≡ 1178 }
    ensures { as_layout result ≡ layout_of block.now own }
{
    layout_in(whole(block), own)
}

// The same of a block as an array. Its loop takes all registers: inlined in `decode`, it would count in memory, and take half as long again.
#[inline(never)]
pub(crate) fn layout_in(block: &[u8; BLOCK_BYTES], own: u8) -> Layout
    ensures { as_layout result ≡ layout_of block.now own }
{
    Layout {
        slots: array::from_fn(|s| slot_at(block, own, s)),
    }
}

// Whether some slot is live and of the chosen stream.
pub fn has_own(layout: &Layout) -> bool
    ensures { result ≡ list_any (λ s. s.own) layout.now.slots }
{
    layout.slots.iter().any(|slot| slot.own)
}
