// Lines of the events that next gives, while there is room.
ghost use Rattle.std.specs.Prelude.{◌≡◌, ◌+◌, ◌≤◌, length};
ghost use Rattle.queue.specs.Event.{as_given, as_answer};
ghost use Rattle.lines.specs.Line.{longest_line};
ghost use Rattle.lines.specs.Text.{Put};
ghost use Rattle.state.specs.Words.{state_words};
ghost use Rattle.capture.specs.Session.{busy, session_in};
ghost use Rattle.capture.specs.Capture.{event_line, tallied};
ghost use Rattle.capture.specs.Words.{closed_values, Pours, PoursOr};
ghost use Rattle.capture.specs.Steps.{roomy, Drains, poured_of};

use crate::session::{Phase, Progress, Session, Tally, end};
use lines::line::{LONGEST, put_note, put_refusal, put_unit};
use queue::event::Event;
use receiver::next::read_on;
use refusal::Refusal;
use state::places::{STATE_WORDS, is_owed};

// Whether there is room for a longest line from `at` on.
pub fn has_room(size: usize, at: usize) -> bool
    ensures { result ≡ roomy size at }
{
    LONGEST <= size.saturating_sub(at)
}

// Whether next is owed.
pub fn is_busy(session: Session, words: &[u64]) -> bool
    requires { state_words ≤ length words.now }
    ensures { result ≡ busy (session_in session words.now) }
{
    session.phase == Phase::Reading && is_owed(words)
}

fn put_event(out: &mut [u8], at: usize, tally: Tally, event: Event) -> usize
    requires { at + longest_line ≤ length out.old }
    ensures { Put out.old at (event_line tally (as_given event)) longest_line result out.new }
{
    match event {
        Event::Note(note, id) => put_note(out, at, tally.frames, tally.slot, note, id),
        Event::Unit(given) => put_unit(out, at, tally.frames, tally.slot, given),
    }
}

// The counts after what next answered: a note or a unit counts, that nothing waits and a refusal do not.
#[tactic(auto, unfolding(crate::specs::Capture::tallied))]
pub fn count(tally: Tally, answer: Result<Option<Event>, Refusal>) -> Tally
    ensures { result ≡ tallied tally (as_answer answer) }
{
    match answer {
        Ok(Some(Event::Note(_, _))) => Tally {
            notes: tally.notes.wrapping_add(1),
            ..tally
        },
        Ok(Some(Event::Unit(_))) => Tally {
            units: tally.units.wrapping_add(1),
            ..tally
        },
        Ok(None) | Err(_) => tally,
    }
}

// The session after what next answered: a refusal ends it.
#[tactic(auto, unfolding(crate::specs::Words::closed_values))]
pub fn close(session: Session, answer: Result<Option<Event>, Refusal>) -> Session
    ensures { result ≡ closed_values session (as_answer answer) }
{
    match answer {
        Ok(_) => session,
        Err(_) => end(session),
    }
}

// Reads on from event to event. What `next` tests first, that it is owed and has room, holds throughout: so `read_on`, not `next`.
fn drain(
    session: Session,
    words: &mut [u64],
    packet: &[u8],
    collecting: &mut [u8],
    out: &mut [u8],
    at: usize,
) -> Progress
    requires { (state_words ≤ length words.old)
        × Drains (session_in session words.old) (length packet.now) (length collecting.old) }
    ensures { Pours words.old result words.new collecting.new out.new
        (poured_of (session_in session words.old) packet.now collecting.old out.old at) }
{
    let mut tally = session.tally;
    let mut place = at;
    while has_room(out.len(), place) {
        let Some(event) = read_on(words, packet, collecting) else {
            break;
        };
        place = put_event(out, place, tally, event);
        tally = count(tally, Ok(Some(event)));
    }
    Progress {
        session: Session { tally, ..session },
        at: place,
    }
}

// Calls next until nothing waits or there is no room, and writes its lines. With a state memory under 751 words it does nothing.
pub fn pour(
    session: Session,
    words: &mut [u64],
    packet: &[u8],
    collecting: &mut [u8],
    out: &mut [u8],
    at: usize,
) -> Progress
    ensures { PoursOr session at words.old collecting.old out.old
        result words.new collecting.new out.new
        (poured_of (session_in session words.old) packet.now collecting.old out.old at) }
{
    if words.len() < STATE_WORDS || !is_busy(session, words) || !has_room(out.len(), at) {
        return Progress { session, at };
    }
    if frames::slot::is_short(words, packet.len(), collecting.len()) {
        return Progress {
            session: end(session),
            at: put_refusal(out, at, Refusal::ShortMemory),
        };
    }
    drain(session, words, packet, collecting, out, at)
}
