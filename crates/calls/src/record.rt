// An event as a record of words.
ghost use Rattle.std.specs.Prelude.{◌≡◌, ◌+◌, ◌≤◌, length, replicate};
ghost use Rattle.wire.specs.Words.{Put};
ghost use Rattle.queue.specs.Event.{as_event};
ghost use Rattle.calls.specs.Record.{read_place, is_unit_record};
ghost use Rattle.calls.specs.Record.{NoteStored, UnitRecordStored, EventStored};

use crate::bounds::{MOST_8, MOST_16, MOST_32, MOST_64, are_within};
use queue::event::{Event, Given, Memory, Place};
use words::channel::store_unit;

// What it is; a note's number; a unit's place; what a unit carries, of a note its packet_id; words for later fields.
pub const RECORD_WORDS: usize = 24;
// Where the words of what a unit carries begin.
pub const CARRIED: usize = 5;

fn put_zeros(t: &mut [u64], i: usize, n: usize)
    requires { i + n ≤ length t.old }
    ensures { Put t.old t.new i n (replicate n 0) }
{
    t[i..i + n].fill(0);
}

fn put_note(t: &mut [u64], i: usize, number: u8, id: u16)
    requires { i + 24 ≤ length t.old }
    ensures { NoteStored t.old t.new i number id }
{
    t[i] = 1;
    t[i + 1] = u64::from(number);
    t[i + 2] = 0;
    t[i + 3] = 0;
    t[i + 4] = 0;
    t[i + CARRIED] = u64::from(id);
    put_zeros(t, i + 6, 18);
}

fn put_unit(t: &mut [u64], i: usize, given: Given)
    requires { i + 24 ≤ length t.old }
    ensures { UnitRecordStored t.old t.new i given }
{
    let place = given.place;
    t[i] = 2;
    t[i + 1] = 0;
    t[i + 2] = place.memory as u64;
    t[i + 3] = place.start as u64;
    t[i + 4] = place.len as u64;
    store_unit(t, i + CARRIED, given.unit);
    put_zeros(t, i + 15, 9);
}

// The record of an event, from word `i` on; zeros where nothing waits.
pub(crate) fn put_event(t: &mut [u64], i: usize, event: Option<Event>)
    requires { i + 24 ≤ length t.old }
    ensures { EventStored t.old t.new i (as_event event) }
{
    match event {
        None => put_zeros(t, i, RECORD_WORDS),
        Some(Event::Note(number, id)) => put_note(t, i, number, id),
        Some(Event::Unit(given)) => put_unit(t, i, given),
    }
}

// The place that a record has.
pub(crate) fn load_place(t: &[u64]) -> Place
    requires { 24 ≤ length t.now }
    ensures { result ≡ read_place t.now 0 }
{
    Place {
        memory: Memory::from(t[2]),
        start: t[3] as usize,
        len: t[4] as usize,
    }
}

// The most that each word of a unit's record may be.
const UNIT_MOST: [u64; RECORD_WORDS] = [
    2, MOST_64, MOST_64, MOST_64, MOST_64, MOST_16, MOST_8, MOST_32, MOST_32, MOST_32, MOST_32,
    MOST_32, MOST_8, MOST_8, MOST_32, 0, 0, 0, 0, 0, 0, 0, 0, 0,
];

// Whether it is the record of a unit, each word one that its field can have.
pub fn is_unit(event: &[u64]) -> bool
    ensures { result ≡ is_unit_record event.now }
{
    are_within(event, &UNIT_MOST) && event[0] == 2
}
