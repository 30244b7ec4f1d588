// Blocks of a capture's bytes, fed to it one after the other.
ghost use Rattle.std.specs.Prelude.{◌≡◌, ℕ, ◌+◌, ◌≤◌, ◌<◌, length};
ghost use Rattle.lines.specs.Line.{longest_line};
ghost use Rattle.capture.specs.Command.{longest_command};
ghost use Rattle.state.specs.Words.{state_words};
ghost use Rattle.capture.specs.Session.{is_ended, session_in};
ghost use Rattle.feeding.specs.Fed.{Runs, Feeds};
ghost use Rattle.feeding.specs.Turn.{some_of, kept_turn, Stands};
ghost use Rattle.feeding.specs.Feed.{wanted_of, kept_of, Keeps, whole_size, gathered_of, bytes_taken, source_of, ran_of, goes_by, fed_of};

use capture::act::act;
use capture::command::size;
use capture::pour::{has_room, is_busy, pour};
use capture::session::{Phase, Progress, Session};
use state::places::STATE_WORDS;

// The longest command: S, its length, and 65,535 bytes.
const LONGEST_COMMAND: usize = 65538;

// What a block leaves.
#[derive(Clone, Copy)]
pub struct Fed {
    pub session: Session,
    // How many bytes of a command that is not whole yet stand in the command memory, which the caller lends and keeps.
    pub held: usize,
    // How many bytes of the block were read.
    pub read: usize,
    // How many bytes of text were written.
    pub written: usize,
}

// How many bytes more are wanted to know a command's length, or to have it whole.
#[tactic(auto, unfolding(crate::specs::Feed::wanted_of))]
fn wanted(b: &[u8]) -> usize
    ensures { result ≡ wanted_of b.now }
{
    if b.is_empty() {
        return 1;
    }
    size(b).saturating_sub(b.len())
}

// How many of the first `held` bytes are held: all where they begin a command that is not whole, else none.
fn keep(command: &[u8], held: usize) -> usize
    ensures { (result ≡ kept_of command.now held) × Keeps command.now result }
{
    match command.get(..held) {
        Some(begun) if held < size(begun) => held,
        _ => 0,
    }
}

// How many bytes a command has that stands whole at the front of `b`, an unknown one its first.
fn whole_size(b: &[u8]) -> Option<usize>
    ensures { (result ≡ some_of (whole_size b.now)) × (whole_size b.now ≤ length b.now) }
{
    let n = size(b).max(1);
    if n <= b.len() { Some(n) } else { None }
}

// The bytes of the block that a turn takes, and where its command stands.
#[derive(Clone, Copy)]
struct Turn {
    // How many bytes of the block.
    took: usize,
    // How many bytes of the command stand in the command memory; none where it stands whole in the block.
    gathered: Option<usize>,
}

// The bytes that are wanted come to the command memory, as far as the block has them.
fn gather(command: &mut [u8], held: usize, block: &[u8], read: usize) -> Turn
    requires { Keeps command.old held × (longest_command ≤ length command.old) × (read < length block.now) }
    ensures { (result, command.new) ≡ kept_turn (gathered_of command.old held block.now read) }
{
    let took = wanted(&command[..held]).min(block.len() - read);
    wire::memory::copy_at(command, held, &block[read..read + took]);
    Turn {
        took,
        gathered: Some(held + took),
    }
}

// A command that stands whole in the block is taken from there; else bytes are gathered behind those that are held.
fn take_bytes(command: &mut [u8], held: usize, block: &[u8], read: usize) -> Turn
    requires { Keeps command.old held × (longest_command ≤ length command.old) × (read < length block.now) }
    ensures { (result, command.new) ≡ kept_turn (bytes_taken command.old held block.now read) }
{
    match whole_size(&block[read..]) {
        Some(took) if held == 0 => Turn {
            took,
            gathered: None,
        },
        _ => gather(command, held, block, read),
    }
}

// The command's bytes.
fn source<'a>(
    command: &'a [u8],
    gathered: Option<usize>,
    block: &'a [u8],
    from: usize,
    to: usize,
) -> &'a [u8]
    requires { Stands gathered (length command.now) × (from ≤ to) × (to ≤ length block.now) }
    ensures { (n : ℕ) → gathered ≡ some_of n → result.now ≡ source_of command.now n block.now from to }
{
    match gathered {
        Some(n) => &command[..n],
        None => &block[from..to],
    }
}

// A command, carried out if it is whole, with the lines of what next gives; an unknown one ends the session.
fn run(
    session: Session,
    b: &[u8],
    words: &mut [u64],
    packet: &mut [u8],
    collecting: &mut [u8],
    out: &mut [u8],
    at: usize,
) -> Progress
    requires { (state_words ≤ length words.old) × (1 ≤ length b.now) × (at + longest_line ≤ length out.old) }
    ensures { Runs words.old result words.new packet.new collecting.new out.new
        (ran_of (session_in session words.old) b.now packet.old collecting.old
        out.old at) }
{
    if b.len() < size(b) {
        return Progress { session, at };
    }
    let acted = act(session, words, packet, collecting, b, out, at);
    pour(acted.session, words, packet, collecting, out, acted.at)
}

pub fn is_ended(phase: Phase) -> bool
    ensures { result ≡ is_ended phase }
{
    phase == Phase::Ended
}

// Whether another command is read: bytes are left, there is room for a line, and the session neither ended nor owes next.
#[tactic(auto, unfolding(crate::specs::Feed::goes_by))]
fn goes_on(
    session: Session,
    words: &[u64],
    read: usize,
    size: usize,
    written: usize,
    room: usize,
) -> bool
    requires { state_words ≤ length words.now }
    ensures { result ≡ goes_by (session_in session words.now) read size written room }
{
    read < size && has_room(room, written) && !is_busy(session, words) && !is_ended(session.phase)
}

// Reads commands from a block until it is used up, or there is no room for a line, or the session ends or owes next. With a command
// memory under 65,538 bytes, or a state memory under 751 words, it reads nothing.
pub fn feed(
    session: Session,
    held: usize,
    command: &mut [u8],
    block: &[u8],
    words: &mut [u64],
    packet: &mut [u8],
    collecting: &mut [u8],
    out: &mut [u8],
) -> Fed
    ensures { Feeds session held words.old command.old packet.old collecting.old
        out.old result words.new command.new packet.new collecting.new out.new
        (fed_of (session_in session words.old) held command.old block.now packet.old
        collecting.old out.old) }
{
    if words.len() < STATE_WORDS || command.len() < LONGEST_COMMAND {
        return Fed {
            session,
            held,
            read: 0,
            written: 0,
        };
    }
    let mut fed = Fed {
        session,
        held: keep(command, held),
        read: 0,
        written: 0,
    };
    while goes_on(
        fed.session,
        words,
        fed.read,
        block.len(),
        fed.written,
        out.len(),
    ) {
        let turn = take_bytes(command, fed.held, block, fed.read);
        let end = fed.read + turn.took;
        let b = source(command, turn.gathered, block, fed.read, end);
        let ran = run(fed.session, b, words, packet, collecting, out, fed.written);
        fed = Fed {
            session: ran.session,
            held: keep(command, turn.gathered.unwrap_or(0)),
            read: end,
            written: ran.at,
        };
    }
    fed
}
