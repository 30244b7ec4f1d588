// Next, with its event as a record, and many events for one call.
ghost use Rattle.std.specs.Prelude.{◌≡◌, ℕ, false, ◌≤◌, length};
ghost use Rattle.refusal.specs.Refusal.{answer};
ghost use Rattle.queue.specs.Event.{as_given};
ghost use Rattle.state.specs.Words.{state_words, state_in};
ghost use Rattle.frames.specs.Slot.{short_by};
ghost use Rattle.calls.specs.Events.{is_joined, next_call, events_call};
ghost use Rattle.calls.specs.Words.{given_or, NextDone, EventsGiven, EventsDone};

use crate::record::{RECORD_WORDS, put_event};
use frames::slot::is_short;
use queue::event::{Event, Memory};
use receiver::next::{next, read_on};
use refusal::Refusal;
use state::places::{STATE_WORDS, is_owed};

// Whether it is a joined unit, whose bytes a later packet may overwrite.
fn is_joined(event: Event) -> bool
    ensures { result ≡ is_joined (as_given event) }
{
    match event {
        Event::Note(_, _) => false,
        Event::Unit(given) => matches!(given.place.memory, Memory::Collecting),
    }
}

// The next event, as a record at the front of `out`.
pub fn next_record(
    words: &mut [u64],
    packet: &[u8],
    collecting: &mut [u8],
    out: &mut [u64],
) -> Result<(), Refusal>
    ensures { NextDone words.old collecting.old out.old
        (answer result) words.new collecting.new out.new
        (next_call (state_in words.old) packet.now collecting.old out.old) }
{
    if words.len() < STATE_WORDS {
        return Err(Refusal::StateMemory);
    }
    if out.len() < RECORD_WORDS {
        return Err(Refusal::EventMemory);
    }
    let event = next(words, packet, collecting)?;
    put_event(out, 0, event);
    Ok(())
}

// Reads on until nothing waits, there is no room for a record more, or there was a joined unit. What `next` tests first of the memories
// holds throughout: so `read_on`, not `next`.
fn read_events(
    words: &mut [u64],
    packet: &[u8],
    collecting: &mut [u8],
    records: &mut [u64],
) -> usize
    requires { (state_words ≤ length words.old)
        × (short_by (state_in words.old).config (length packet.now) (length collecting.old) ≡ false) }
    ensures { EventsGiven words.old result words.new collecting.new records.new
        (state_in words.old) packet.now collecting.old records.old }
{
    let room = records.len() / RECORD_WORDS;
    for n in 0..room {
        if !is_owed(words) {
            return n;
        }
        let Some(event) = read_on(words, packet, collecting) else {
            return n;
        };
        put_event(records, n * RECORD_WORDS, Some(event));
        if is_joined(event) {
            return n + 1;
        }
    }
    room
}

// Many events, as records one behind the other; gives how many.
pub fn events(
    words: &mut [u64],
    packet: &[u8],
    collecting: &mut [u8],
    records: &mut [u64],
) -> Result<usize, Refusal>
    ensures { (count : ℕ) → EventsDone words.old collecting.old records.old count
        (answer result) words.new collecting.new records.new (given_or result count)
        (events_call (state_in words.old) packet.now collecting.old records.old count) }
{
    if words.len() < STATE_WORDS {
        return Err(Refusal::StateMemory);
    }
    if records.len() < RECORD_WORDS {
        return Err(Refusal::EventMemory);
    }
    if is_short(words, packet.len(), collecting.len()) {
        return Err(Refusal::ShortMemory);
    }
    Ok(read_events(words, packet, collecting, records))
}
