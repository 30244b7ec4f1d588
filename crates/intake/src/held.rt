// What a slot leaves: the bytes that are held, and what next has yet to read.

// Held bytes of a TLV packet, perhaps none, and where they stand in packet memory; searching where not `on`.
// A flag, and no Option: the state is read from any words (`state_in`), also from such that have places beside a flag that is off.
#[derive(Clone, Copy, Default)]
pub struct Held {
    pub on: bool,
    pub start: usize,
    pub len: usize,
}

// What next has yet to read of the slot. Numbers and a flag, as the words have them (`state_in`).
#[derive(Clone, Copy, Default)]
pub struct Cursor {
    // The slot's own note, 40 to 43; 0 for none.
    pub note: u8,
    // The end of the held packet that the slot completed, which stands from byte 0; 0 for none.
    pub packet: usize,
    // Whether packets are read from the slot, and from where to where in packet memory.
    pub reading: bool,
    pub at: usize,
    pub end: usize,
}

#[derive(Clone, Copy)]
pub struct Intake {
    pub held: Held,
    pub cursor: Cursor,
}
