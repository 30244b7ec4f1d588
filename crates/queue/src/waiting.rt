// What next has yet to give of a packet, one event at a time, in words that the caller lends.
ghost use Rattle.std.specs.Prelude.{◌≡◌, ℕ, ◌+◌, ◌≤◌, List, length};
ghost use Rattle.queue.specs.Event.{as_given, as_event};
ghost use Rattle.queue.specs.Waiting.{Nothing, One, Many};
ghost use Rattle.queue.specs.Words.{read_packet, PacketStored, NotesStored, GiveStored, Gives, Takes};

use crate::event::{Event, Given, Memory, Place};
use crate::located::{Located, whole};
use mmtp::header::Psn;
use mmtp::packet::Packet;
use mmtp::payload::{Indicator, Payload};
use mmtp::unit::Step;
use reassembly::note::JoinNote;
use words::channel::{load_unit, store_unit};

// 0 the note's number, 1 whether 64 follows it, 2 the packet_id, 3 which units: none, one, those of an aggregate.
// One: 4 to 13 what it carries, 14 to 16 its place.
// An aggregate: 4 to 13 its packet, 14 to 16 where that stands, and the next unit's place in it.
pub const QUEUE_WORDS: usize = 17;

// The note is a number, 0 for none, as the words have it.
pub fn put_notes(t: &mut [u64], i: usize, note: u8, over: bool, packet_id: u16)
    requires { i + 17 ≤ length t.old }
    ensures { NotesStored t.old t.new i note over packet_id }
{
    t[i] = note as u64;
    t[i + 1] = u64::from(over);
    t[i + 2] = packet_id as u64;
}

pub fn put_none(t: &mut [u64], i: usize)
    requires { i + 17 ≤ length t.old }
    ensures { GiveStored t.old t.new i Nothing }
{
    t[i + 3..i + QUEUE_WORDS].fill(0);
}

pub fn put_one(t: &mut [u64], i: usize, given: Given)
    requires { i + 17 ≤ length t.old }
    ensures { GiveStored t.old t.new i (One given) }
{
    t[i + 3] = 1;
    store_unit(t, i + 4, given.unit);
    t[i + 14] = given.place.memory as u64;
    t[i + 15] = given.place.start as u64;
    t[i + 16] = given.place.len as u64;
}

fn store_packet(t: &mut [u64], i: usize, packet: Packet)
    requires { i + 10 ≤ length t.old }
    ensures { PacketStored t.old t.new i packet }
{
    let payload = packet.payload;
    t[i] = packet.place as u64;
    t[i + 1] = packet.packet_id as u64;
    t[i + 2] = packet.psn.0 as u64;
    t[i + 3] = payload.kind as u64;
    t[i + 4] = payload.indicator as u64;
    t[i + 5] = payload.counter as u64;
    t[i + 6] = payload.mpu as u64;
    t[i + 7] = u64::from(payload.aggregated);
    t[i + 8] = u64::from(payload.wide);
    t[i + 9] = payload.start as u64;
}

#[tactic(auto, unfolding(crate::specs::Words::read_packet, wire::specs::Words::flag_of))]
fn load_packet(t: &[u64], i: usize) -> Packet
    requires { i + 10 ≤ length t.now }
    ensures { result ≡ read_packet t.now i }
{
    Packet {
        place: t[i] as usize,
        packet_id: (t[i + 1] % 65536) as u16,
        psn: Psn((t[i + 2] % 4294967296) as u32),
        payload: Payload {
            kind: (t[i + 3] % 256) as u8,
            indicator: Indicator::from(t[i + 4]),
            counter: (t[i + 5] % 256) as u8,
            mpu: (t[i + 6] % 4294967296) as u32,
            aggregated: t[i + 7] != 0,
            wide: t[i + 8] != 0,
            start: t[i + 9] as usize,
        },
    }
}

pub fn put_many(t: &mut [u64], i: usize, l: Located, at: usize)
    requires { i + 17 ≤ length t.old }
    ensures { GiveStored t.old t.new i
        (Many (record { packet = l.packet; start = l.start; end = l.end; at = at })) }
{
    t[i + 3] = 2;
    store_packet(t, i + 4, l.packet);
    t[i + 14] = l.start as u64;
    t[i + 15] = l.end as u64;
    t[i + 16] = at as u64;
}

// The next unit of an aggregate.
fn take_many(t: &mut [u64], i: usize, memory: &[u8]) -> Option<Event>
    requires { Gives t.old i 2 }
    ensures { Takes t.old i memory.now (as_event result) t.new }
{
    let packet = load_packet(t, i + 4);
    let payload = packet.payload;
    let start = t[i + 14] as usize;
    let end = t[i + 15] as usize;
    let at = t[i + 16] as usize;
    let bytes = wire::memory::part(memory, start, end.saturating_sub(start));
    match mmtp::unit::unit_at(bytes, at, payload.kind, payload.wide) {
        Step::Unit(u) => {
            t[i + 16] = u.end as u64;
            Some(Event::Unit(whole(Located { packet, start, end }, u)))
        }
        Step::Malformed | Step::End => {
            put_none(t, i);
            None
        }
    }
}

fn take_one(t: &mut [u64], i: usize) -> Event
    requires { Gives t.old i 1 }
    ensures { (p : List ℕ) → Takes t.old i p (as_given result) t.new }
{
    let unit = load_unit(t, i + 4);
    let place = Place {
        memory: Memory::from(t[i + 14]),
        start: t[i + 15] as usize,
        len: t[i + 16] as usize,
    };
    put_none(t, i);
    Event::Unit(Given { unit, place })
}

pub fn take(t: &mut [u64], i: usize, memory: &[u8]) -> Option<Event>
    requires { i + 17 ≤ length t.old }
    ensures { Takes t.old i memory.now (as_event result) t.new }
{
    let note = (t[i] % 256) as u8;
    let packet_id = (t[i + 2] % 65536) as u16;
    if note != 0 {
        t[i] = 0;
        return Some(Event::Note(note, packet_id));
    }
    if t[i + 1] != 0 {
        t[i + 1] = 0;
        return Some(Event::Note(u8::from(JoinNote::AboveLimit), packet_id));
    }
    match t[i + 3] {
        0 => None,
        1 => Some(take_one(t, i)),
        _ => take_many(t, i, memory),
    }
}
