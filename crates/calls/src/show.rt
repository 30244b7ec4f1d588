// A copy of a unit's bytes.
ghost use Rattle.std.specs.Prelude.{◌≡◌, ℕ};
ghost use Rattle.refusal.specs.Refusal.{answer};
ghost use Rattle.calls.specs.Words.{given_or};
ghost use Rattle.calls.specs.Show.{show_call};

use crate::record::{RECORD_WORDS, load_place};
use receiver::show::show;
use refusal::Refusal;

// A copy of the bytes of a record's unit at the front of `output`; gives how many.
pub fn copy_unit(
    packet: &[u8],
    collecting: &[u8],
    event: &[u64],
    output: &mut [u8],
) -> Result<usize, Refusal>
    ensures { (len : ℕ) → (answer result, given_or result len, output.new)
        ≡ show_call packet.now collecting.now event.now output.old len }
{
    if event.len() < RECORD_WORDS {
        return Err(Refusal::EventMemory);
    }
    let place = load_place(event);
    let bytes = show(packet, collecting, place);
    if output.len() < bytes.len() {
        return Err(Refusal::UnitOutput);
    }
    wire::memory::copy_at(output, 0, bytes);
    Ok(bytes.len())
}
