// The packer's call.
ghost use Rattle.std.specs.Prelude.{◌≡◌};
ghost use Rattle.ixohuemil.specs.Answers.{pack_record};

use crate::answer::counted;
use calls::record::{CARRIED, is_unit};
use packer::pack::pack;
use refusal::Refusal;
use words::channel::load_unit;

// Packs the unit of an event, with these bytes, in pieces of at most `m`, the unit's psn in its first packet; answers 0, with the
// bytes written in `len`. Refused, it answers 92 or 70 to 74 and writes nothing.
#[unsafe(no_mangle)]
pub extern "C" fn ixohuemil_pack(
    event: &[u64],
    cid: u16,
    sn: u8,
    m: usize,
    bytes: &[u8],
    output: &mut [u8],
    len: &mut u64,
) -> u8
    ensures { (result, len.new, output.new)
        ≡ pack_record event.now cid sn m bytes.now output.old len.old }
{
    if !is_unit(event) {
        return Refusal::EventMemory.into();
    }
    let unit = load_unit(event, CARRIED);
    counted(pack(unit, cid, sn, m, bytes, output), len)
}
