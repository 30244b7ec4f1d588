// The notes on packets, and their numbers.

#[derive(Clone, Copy)]
pub enum PacketNote {
    // No MMTP packet can be found behind the compressed header.
    BadFlow = 50,
    BadHeader = 51,
    BadPayload = 52,
}

// The number that a note is known by.
impl From<PacketNote> for u8 {
    ghost use Rattle.std.specs.Prelude.{◌≡◌};
    ghost use Rattle.mmtp.specs.Notes.{number_of};

    ghost from_gives = { λ note number. number ≡ number_of note };

    fn from(note: PacketNote) -> u8 {
        note as u8
    }
}

// A note, and the packet_id that it is about; 0 where it has none.
#[derive(Clone, Copy)]
pub struct Noted {
    pub note: PacketNote,
    pub packet_id: u16,
}

// A note that has no packet_id.
impl From<PacketNote> for Noted {
    ghost use Rattle.std.specs.Prelude.{◌≡◌};
    ghost use Rattle.mmtp.specs.Notes.{without_id};

    ghost from_gives = { λ note noted. noted ≡ without_id note };

    fn from(note: PacketNote) -> Noted {
        Noted { note, packet_id: 0 }
    }
}
