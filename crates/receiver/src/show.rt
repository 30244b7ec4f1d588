// Show: a unit's bytes.
ghost use Rattle.std.specs.Prelude.{◌≡◌};
ghost use Rattle.receiver.specs.Show.{show_of};

use queue::event::{Memory, Place};

// A part of packet memory for a whole unit, of collecting memory for a joined one; a place outside gives an empty part.
#[tactic(auto, unfolding(crate::specs::Show::show_of))]
pub fn show<'a>(packet: &'a [u8], collecting: &'a [u8], place: Place) -> &'a [u8]
    ensures { result.now ≡ show_of packet.now collecting.now place }
{
    let memory = match place.memory {
        Memory::Packet => packet,
        Memory::Collecting => collecting,
    };
    wire::memory::part(memory, place.start, place.len)
}
