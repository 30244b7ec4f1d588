// A whole capture in memory, and the lines that it comes to.
ghost use Rattle.std.specs.Prelude.{◌≡◌};
ghost use Rattle.ixohuemil.specs.Text.{text_call};

use capture::finish::{begin, finish};
use feeding::feed::feed;
use state::places::STATE_WORDS;

// Writes the lines of a capture to `text`, as `tlv_capture` prints them with memories of these lengths, and answers how many bytes
// it wrote. Where no longest line would fit any more it stops: lines are missing then, the last one among them.
#[unsafe(no_mangle)]
pub extern "C" fn ixohuemil_text(
    capture: &[u8],
    packet: &mut [u8],
    collecting: &mut [u8],
    text: &mut [u8],
) -> u64
    ensures { (result, packet.new, collecting.new, text.new)
        ≡ text_call capture.now packet.old collecting.old text.old }
{
    let mut command = [0u8; 65538];
    let mut words = [0u64; STATE_WORDS];
    let fresh = begin(&mut words);
    let fed = feed(
        fresh,
        0,
        &mut command,
        capture,
        &mut words,
        packet,
        collecting,
        text,
    );
    finish(fed.session.tally, text, fed.written) as u64
}
