// A command: its letter, its length, and what C starts with.
ghost use Rattle.std.specs.Prelude.{◌≡◌, ◌<◌, ◌≤◌, length};
ghost use Rattle.capture.specs.Command.{longest_command, slot_size, size_of, ids_of, config_of};

use reassembly::config::{Config, Rules};
use watch::given::Watch;
use wire::field::Field;

// What a command's first byte says; an unknown one is a command too, which ends the capture.
#[derive(Clone, Copy, Debug, PartialEq, Eq)]
pub enum Letter {
    Start,
    Frame,
    LostFrame,
    Slot,
    LostSlot,
    Unknown,
}

impl From<u8> for Letter {
    ghost use Rattle.std.specs.Prelude.{◌≡◌};
    ghost use Rattle.capture.specs.Command.{letter_of};

    ghost from_gives = { λ b letter. letter ≡ letter_of b };

    #[tactic(auto, unfolding(crate::specs::Command::letter_of))]
    fn from(b: u8) -> Letter {
        match b {
            b'C' => Letter::Start,
            b'F' => Letter::Frame,
            b'X' => Letter::LostFrame,
            b'S' => Letter::Slot,
            b'L' => Letter::LostSlot,
            _ => Letter::Unknown,
        }
    }
}

// How many bytes S has, as far as its first bytes tell.
fn slot_size(b: &[u8]) -> usize
    ensures { (result ≡ slot_size b.now) × (result ≤ longest_command) }
{
    if b.len() < 3 {
        return 3;
    }
    3 + usize::from(u16::read(b, 1))
}

// How many bytes the command has, as far as its first bytes tell; 0 where it is unknown, since nothing of it is read.
pub fn size(b: &[u8]) -> usize
    ensures { (result ≡ size_of b.now) × (result ≤ longest_command) }
{
    if b.is_empty() {
        return 0;
    }
    match Letter::from(b[0]) {
        Letter::Start => 42,
        Letter::Frame => 1179,
        Letter::LostFrame | Letter::LostSlot => 1,
        Letter::Slot => slot_size(b),
        Letter::Unknown => 0,
    }
}

// The sixteen ids of C, fields of its bytes.
type Ids = [u16; 16];

fn ids(b: &[u8]) -> Ids
    requires { 42 ≤ length b.now }
    ensures { result ≡ ids_of b.now }
{
    let mut ids = [0u16; 16];
    for i in 0..16 {
        ids[i] = u16::read(b, 6 + 2 * i);
    }
    ids
}

// What C starts with.
pub fn config(b: &[u8]) -> Config
    requires { 42 ≤ length b.now }
    ensures { result ≡ config_of b.now }
{
    Config {
        stream: u16::read(b, 1),
        cid: u16::read(b, 3),
        watch: Watch {
            ids: ids(b),
            n: usize::from(b[5]),
        },
        rules: Rules {
            limit: u32::read(b, 38) as usize,
        },
    }
}
