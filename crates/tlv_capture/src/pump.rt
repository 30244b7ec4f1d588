// From blocks of standard input to the capture library, and from there to text for standard output.
ghost use Rattle.std.specs.Prelude.{◌≡◌, length};
ghost use Rattle.tlv_capture.specs.Pump.{fresh_pump, wants_of, filled_of, Refilled, FedOn, PouredOn, told_of, goes_on};

use capture::pour::pour;
use capture::session::Session;
use feeding::feed::{feed, is_ended};
use wire::memory::part;

// The descriptor of standard input.
const STDIN_FILENO: i32 = 0;

// How far the capture has come.
#[derive(Clone, Copy)]
pub struct Pumped {
    pub session: Session,
    // Bytes of a command that is not whole yet.
    pub held: usize,
    // Bytes in the block, and how many of them are read.
    pub size: usize,
    pub read: usize,
    // Whether standard input has ended.
    pub last: bool,
    // Whether the last turn read or wrote anything.
    pub moved: bool,
    // Whether standard output takes what is written.
    pub writes: bool,
    // Bytes of text that have yet to be written.
    pub written: usize,
}

pub fn fresh(session: Session) -> Pumped
    ensures { result ≡ fresh_pump session }
{
    Pumped {
        session,
        held: 0,
        size: 0,
        read: 0,
        last: false,
        moved: true,
        writes: true,
        written: 0,
    }
}

// Whether another block is wanted.
fn wants(p: Pumped) -> bool
    ensures { result ≡ wants_of p }
{
    p.size <= p.read && !p.last
}

// A block of `size` bytes came; one that is not full is the last.
fn fill(p: Pumped, size: usize, room: usize) -> Pumped
    ensures { result ≡ filled_of p size room }
{
    Pumped {
        size,
        read: 0,
        last: size < room,
        ..p
    }
}

// Another block of standard input, where one is wanted; nothing can say how long it is, and what it holds.
pub fn refill(p: Pumped, block: &mut [u8]) -> Pumped
    ensures { Refilled p (length block.old) result × (length block.new ≡ length block.old) }
{
    if !wants(p) {
        return p;
    }
    let room = block.len();
    let size = io::read_full(STDIN_FILENO, block);
    fill(p, size, room)
}

// What is left of the block is fed to the capture.
pub fn feed_on(
    p: Pumped,
    block: &[u8],
    command: &mut [u8],
    words: &mut [u64],
    packet: &mut [u8],
    collecting: &mut [u8],
    out: &mut [u8],
) -> Pumped
    ensures { FedOn p block.now words.old command.old packet.old
        collecting.old out.old result words.new command.new packet.new
        collecting.new out.new }
{
    let left = p.size.saturating_sub(p.read);
    let rest = part(block, p.read, left);
    let fed = feed(
        p.session, p.held, command, rest, words, packet, collecting, out,
    );
    let unread = left.saturating_sub(fed.read);
    Pumped {
        session: fed.session,
        held: fed.held,
        read: p.size.saturating_sub(unread),
        moved: fed.read != 0 || fed.written != 0,
        written: fed.written,
        ..p
    }
}

// The lines of what waits.
pub fn pour_on(
    p: Pumped,
    words: &mut [u64],
    packet: &[u8],
    collecting: &mut [u8],
    out: &mut [u8],
) -> Pumped
    ensures { PouredOn p words.old packet.now collecting.old out.old
        result words.new collecting.new out.new }
{
    let poured = pour(p.session, words, packet, collecting, out, 0);
    Pumped {
        session: poured.session,
        moved: p.moved || poured.at != 0,
        written: poured.at,
        ..p
    }
}

// Standard output took what was written, or did not; once it did not, it is not written to again.
pub fn tell(p: Pumped, ok: bool) -> Pumped
    ensures { result ≡ told_of p ok }
{
    Pumped {
        writes: p.writes && ok,
        written: 0,
        ..p
    }
}

// Whether there is more to do.
pub fn goes_on(p: Pumped) -> bool
    ensures { result ≡ goes_on p }
{
    p.writes && (p.moved || !p.last && !is_ended(p.session.phase))
}
