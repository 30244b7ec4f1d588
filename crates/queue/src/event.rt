// What next gives: notes and units, and where a unit's bytes stand.
use reassembly::unit::Unit;

// A memory that the caller lends. Its number is its place here, 0 or 1.
#[derive(Clone, Copy)]
pub enum Memory {
    Packet,
    Collecting,
}

// The memory of a number: 0 packet memory, all others collecting memory.
impl From<u64> for Memory {
    ghost use Rattle.std.specs.Prelude.{◌≡◌};
    ghost use Rattle.queue.specs.Words.{memory_at};

    ghost from_gives = { λ n m. m ≡ memory_at n };

    #[tactic(auto, unfolding(crate::specs::Words::memory_at))]
    fn from(n: u64) -> Memory {
        match n {
            0 => Memory::Packet,
            _ => Memory::Collecting,
        }
    }
}

// Where a unit's bytes stand.
#[derive(Clone, Copy)]
pub struct Place {
    pub memory: Memory,
    pub start: usize,
    pub len: usize,
}

// A unit that next gives.
#[derive(Clone, Copy)]
pub struct Given {
    pub unit: Unit,
    pub place: Place,
}

// What next gives.
#[derive(Clone, Copy)]
pub enum Event {
    // A note's number, and its packet_id; 0 for notes up to 51, which have none. A number, since any may stand in the words (`state_in`).
    Note(u8, u16),
    Unit(Given),
}
