// The notes on joining, and their numbers.

#[derive(Clone, Copy, PartialEq, Eq)]
pub enum JoinNote {
    // A packet of the packet_id is missing: the psn is not the last one heard plus one.
    Gap = 60,
    // FI 00 or 01 comes while a unit is open, which is dropped.
    Interrupted = 61,
    // FI 10 or 11 comes while idle: its unit has no first piece.
    Headless = 62,
    // FI 10 or 11 does not agree with the open unit.
    Apart = 63,
    // The joined bytes are above R.
    AboveLimit = 64,
}

// The number that a note is known by.
impl From<JoinNote> for u8 {
    ghost use Rattle.std.specs.Prelude.{◌≡◌};
    ghost use Rattle.reassembly.specs.Notes.{number_of};

    ghost from_gives = { λ note number. number ≡ number_of note };

    fn from(note: JoinNote) -> u8 {
        note as u8
    }
}
