// The first session and the last line.
ghost use Rattle.std.specs.Prelude.{◌≡◌};
ghost use Rattle.capture.specs.Words.{Begins};
ghost use Rattle.capture.specs.Steps.{finished_of};

use crate::pour::has_room;
use crate::session::{Phase, Session, Tally};
use lines::line::put_end;
use reassembly::config::{Config, Rules};
use state::places::STATE_WORDS;
use state::start::put_fresh;
use watch::given::Watch;

// Nothing read. A state memory under 751 words is left as it is: then nothing will be read.
pub fn begin(words: &mut [u64]) -> Session
    ensures { Begins words.old result words.new }
{
    let session = Session {
        phase: Phase::Before,
        tally: Tally::default(),
    };
    if STATE_WORDS <= words.len() {
        let blank = Config {
            stream: 0,
            cid: 0,
            watch: Watch { ids: [0; 16], n: 0 },
            rules: Rules { limit: 0 },
        };
        put_fresh(words, blank);
    }
    session
}

// The last line; nothing where there is no room for it.
pub fn finish(tally: Tally, out: &mut [u8], at: usize) -> usize
    ensures { (result, out.new) ≡ finished_of tally out.old at }
{
    if !has_room(out.len(), at) {
        return at;
    }
    put_end(out, at, tally.frames, tally.units, tally.notes)
}
