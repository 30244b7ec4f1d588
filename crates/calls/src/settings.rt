// Start, with its settings in words.
ghost use Rattle.std.specs.Prelude.{◌≡◌, ◌≤◌, length};
ghost use Rattle.refusal.specs.Refusal.{answer};
ghost use Rattle.state.specs.Words.{state_in, Starts};
ghost use Rattle.calls.specs.Bounds.{are_within};
ghost use Rattle.calls.specs.Settings.{settings_most, ids_in, config_in, start_by};

use crate::bounds::{MOST_16, MOST_64, are_within};
use reassembly::config::{Config, Rules};
use refusal::Refusal;
use state::places::STATE_WORDS;
use state::start::start;
use watch::given::Watch;

// The most that each word may be: stream id, CID, n, R, sixteen packet_ids, and zeros.
const SETTINGS_MOST: [u64; 32] = [
    MOST_16, MOST_16, MOST_64, MOST_64, MOST_16, MOST_16, MOST_16, MOST_16, MOST_16, MOST_16,
    MOST_16, MOST_16, MOST_16, MOST_16, MOST_16, MOST_16, MOST_16, MOST_16, MOST_16, MOST_16, 0, 0,
    0, 0, 0, 0, 0, 0, 0, 0, 0, 0,
];

// Whether there are 32 words, each one that its setting can have.
fn are_settings(settings: &[u64]) -> bool
    ensures { result ≡ are_within settings.now settings_most }
{
    are_within(settings, &SETTINGS_MOST)
}

// The sixteen packet_ids, a word each.
fn ids_of(settings: &[u64]) -> [u16; 16]
    requires { 32 ≤ length settings.now }
    ensures { result ≡ ids_in settings.now }
{
    let mut ids = [0; 16];
    for k in 0..16 {
        ids[k] = (settings[4 + k] % 65536) as u16;
    }
    ids
}

// What start is given.
fn config_of(settings: &[u64]) -> Config
    requires { 32 ≤ length settings.now }
    ensures { result ≡ config_in settings.now }
{
    Config {
        stream: (settings[0] % 65536) as u16,
        cid: (settings[1] % 65536) as u16,
        watch: Watch {
            ids: ids_of(settings),
            n: settings[2] as usize,
        },
        rules: Rules {
            limit: settings[3] as usize,
        },
    }
}

// Start, for settings in words.
pub fn start_by(settings: &[u64], words: &mut [u64]) -> Result<(), Refusal>
    ensures { Starts words.old (answer result) words.new (start_by (state_in words.old) settings.now) }
{
    if words.len() < STATE_WORDS {
        return Err(Refusal::StateMemory);
    }
    if !are_settings(settings) {
        return Err(Refusal::Settings);
    }
    start(config_of(settings), words)
}
