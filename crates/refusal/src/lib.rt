// The refusals of all calls, and their numbers.
#![tactic(auto)]

// Why a call is refused. A refused call changes nothing that it was lent.
#[derive(Clone, Copy, Debug, PartialEq, Eq)]
pub enum Refusal {
    // Start: the number of watched packet_ids is not 1 to 16.
    WatchedCount = 1,
    // A packet_id is watched twice.
    WatchedTwice = 2,
    // The CID is above 4,095.
    ContextId = 3,
    // R is not 1 to 1,048,576.
    Limit = 4,
    // Frame: the control block has not 1,178 bytes.
    BlockLength = 10,
    // Slots are due, or next is owed.
    Busy = 11,
    // The transmission modes break a rule.
    Modes = 12,
    // Not just one relative stream of type TLV has the stream id.
    Stream = 13,
    // No live slot is the stream's own.
    NoSlot = 14,
    // Slot: none is due.
    NoneDue = 20,
    // Next is owed.
    Owed = 21,
    // A memory is too short.
    ShortMemory = 22,
    // The slot's data has another length.
    SlotLength = 23,
    // Packer: the piece size is not 1 to 1,400.
    PieceSize = 70,
    // There is no such kind of unit.
    Kind = 71,
    // The unit has more than 65,535 pieces.
    PieceCount = 72,
    // The output is too short for the packets.
    PacketOutput = 73,
    // The CID is above 4,095.
    PacketContextId = 74,
    // Cutter: the run is not whole TLV packets.
    Run = 75,
    // No code rate has slots of that length.
    SlotSize = 76,
    // The run does not fill that slot.
    SlotNumber = 77,
    // The output has not the slot's length.
    SlotOutput = 78,
    // The state memory is too short.
    StateMemory = 90,
    // A word of the settings has no such value.
    Settings = 91,
    // The event memory is too short, or it is no unit's record.
    EventMemory = 92,
    // The output is too short for the unit.
    UnitOutput = 93,
}

// The number that programs and C know a refusal by.
impl From<Refusal> for u8 {
    ghost use Rattle.std.specs.Prelude.{◌≡◌};
    ghost use Rattle.refusal.specs.Refusal.{number_of};

    ghost from_gives = { λ refusal number. number ≡ number_of refusal };

    fn from(refusal: Refusal) -> u8 {
        refusal as u8
    }
}
