// A whole command, carried out.
ghost use Rattle.std.specs.Prelude.{◌≡◌, ℕ, ◌+◌, ◌<◌, ◌≤◌, List, length};
ghost use Rattle.refusal.specs.Refusal.{answer};
ghost use Rattle.capture.specs.Command.{size_by, size_of};
ghost use Rattle.capture.specs.Capture.{fits, call_of, after_call};
ghost use Rattle.state.specs.Words.{state_words, state_in};
ghost use Rattle.capture.specs.Session.{session_in};
ghost use Rattle.capture.specs.Steps.{acted_of};
ghost use Rattle.capture.specs.Words.{Calls, Acts};

use crate::command::{Letter, config};
use crate::session::{Phase, Progress, Session, Tally, end};
use lines::line::put_refusal;
use refusal::Refusal;
use state::places::due;

// Whether the command may stand here: C first and once.
pub fn is_fit(phase: Phase, letter: Letter) -> bool
    ensures { result ≡ fits phase letter }
{
    match phase {
        Phase::Before => letter == Letter::Start,
        Phase::Reading => matches!(
            letter,
            Letter::Frame | Letter::LostFrame | Letter::Slot | Letter::LostSlot
        ),
        Phase::Ended => false,
    }
}

// The call that a command makes.
fn call(
    letter: Letter,
    words: &mut [u64],
    packet: &mut [u8],
    collecting: &[u8],
    b: &[u8],
) -> Result<(), Refusal>
    requires { (state_words ≤ length words.old) × (1 ≤ length b.now) × (size_by letter b.now ≤ length b.now) }
    ensures { Calls words.old (answer result) words.new packet.new
        (call_of letter (state_in words.old) packet.old collecting.now b.now) }
{
    match letter {
        Letter::Start => state::start::start(config(b), words),
        Letter::Frame => frames::frame::frame(words, &b[1..]),
        Letter::LostFrame => frames::frame::lost_frame(words),
        Letter::Slot => frames::slot::slot(words, packet, collecting, &b[3..]),
        Letter::LostSlot => frames::slot::lost_slot(words, packet, collecting),
        Letter::Unknown => Ok(()),
    }
}

// Another frame.
#[tactic(auto, unfolding(crate::specs::Capture::after_call))]
fn next_frame(session: Session) -> Session
    ensures { (t : List ℕ) → session_in result t ≡ after_call Letter.Frame (session_in session t) }
{
    Session {
        tally: Tally {
            frames: session.tally.frames.wrapping_add(1),
            slot: 0,
            ..session.tally
        },
        ..session
    }
}

// The slot that was due, counted from 1: after the call, the next one counted from 0.
#[tactic(auto, unfolding(crate::specs::Capture::after_call))]
fn next_slot(session: Session, words: &[u64]) -> Session
    requires { state_words ≤ length words.now }
    ensures { session_in result words.now ≡ after_call Letter.Slot (session_in session words.now) }
{
    Session {
        tally: Tally {
            slot: due(words),
            ..session.tally
        },
        ..session
    }
}

#[tactic(auto, unfolding(crate::specs::Capture::after_call))]
fn after_call(letter: Letter, session: Session, words: &[u64]) -> Session
    requires { state_words ≤ length words.now }
    ensures { session_in result words.now ≡ after_call letter (session_in session words.now) }
{
    match letter {
        Letter::Start => Session {
            phase: Phase::Reading,
            ..session
        },
        Letter::Frame | Letter::LostFrame => next_frame(session),
        Letter::Slot | Letter::LostSlot => next_slot(session, words),
        Letter::Unknown => session,
    }
}

// Carries out a whole command; a refusal or an unknown command ends the session.
pub fn act(
    session: Session,
    words: &mut [u64],
    packet: &mut [u8],
    collecting: &[u8],
    b: &[u8],
    out: &mut [u8],
    at: usize,
) -> Progress
    requires { (state_words ≤ length words.old) × (1 ≤ length b.now) × (size_of b.now ≤ length b.now)
        × (at + 29 ≤ length out.old) }
    ensures { Acts words.old result words.new packet.new out.new
        (acted_of (session_in session words.old) packet.old collecting.now b.now
        out.old at) }
{
    let letter = Letter::from(b[0]);
    if !is_fit(session.phase, letter) {
        return Progress {
            session: end(session),
            at,
        };
    }
    match call(letter, words, packet, collecting, b) {
        Ok(()) => Progress {
            session: after_call(letter, session, words),
            at,
        },
        Err(refusal) => Progress {
            session: end(session),
            at: put_refusal(out, at, refusal),
        },
    }
}
