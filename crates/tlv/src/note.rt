// The notes on slots, and their numbers.
#[derive(Clone, Copy, Debug, PartialEq, Eq)]
pub enum SlotNote {
    // A slot was lost while bytes of a packet, perhaps none, were held.
    Lost = 40,
    // The slot is unsound.
    Unsound = 41,
    // The end of what is held, perhaps nothing, is not where the slot's pointers say.
    Misfit = 42,
    // A packet's total is above 16,384.
    TooLong = 43,
}

// The number that a note is known by.
impl From<SlotNote> for u8 {
    ghost use Rattle.std.specs.Prelude.{◌≡◌};
    ghost use Rattle.tlv.specs.Notes.{number_of};

    ghost from_gives = { λ note number. number ≡ number_of note };

    fn from(note: SlotNote) -> u8 {
        note as u8
    }
}
