// A TLV packet in packet memory: read, and joined to the state of its packet_id.
ghost use Rattle.std.specs.Prelude.{◌≡◌, ◌+◌, ◌-◌, ◌*◌, ◌≤◌, ◌<◌, length};
ghost use Rattle.reassembly.specs.Joined.{as_joined};
ghost use Rattle.delivery.specs.Arrived.{as_arrived};
ghost use Rattle.delivery.specs.Packet.{arrived_at, first_unit, piece_from, Stored, stored, Room, Reach, collected};
ghost use Rattle.queue.specs.Located.{whole_given};
ghost use Rattle.delivery.specs.Packet.{wholes_of, give_of};
ghost use Rattle.queue.specs.Words.{GiveStored};
ghost use Rattle.words.specs.Config.{read_config};
ghost use Rattle.delivery.specs.Words.{Keeps, Joins, Receives};

use mmtp::note::Noted;
use mmtp::packet::Packet;
use mmtp::payload::{Indicator, Payload};
use mmtp::unit::{DataUnit, Fields, Step};
use queue::event::{Given, Memory, Place};
use queue::located::{Located, whole};
use queue::waiting::{put_many, put_none, put_notes, put_one};
use reassembly::channel::Channel;
use reassembly::config::Rules;
use reassembly::join::{Action, Joined, Piece};
use words::channel::{CHANNEL_WORDS, load_channel, store_channel, store_heard};
use words::config::{LIST, load_cid, load_count, load_rules};

// The TLV packet that stands from `start` to `end` in packet memory. What start keeps stands in twenty words from `c` on.
// None where it holds no packet of a watched packet_id.
#[tactic(auto, using(mmtp::proofs::FlowLaws::mmtp_place), unfolding(crate::specs::Packet::comes_to))]
pub fn arrive(
    t: &[u64],
    c: usize,
    memory: &[u8],
    start: usize,
    end: usize,
) -> Result<Option<Located>, Noted>
    requires { c + 20 ≤ length t.now }
    ensures { as_arrived result ≡ arrived_at (read_config t.now c) memory.now start end }
{
    let len = wire::memory::distance(start, end);
    let bytes = wire::memory::part(memory, start, len);
    let cid = load_cid(t, c);
    let Some(n) = mmtp::flow::find(bytes, cid)? else {
        return Ok(None);
    };
    let watched = load_count(t, c);
    let Some(packet) = mmtp::packet::read(&bytes[n..], t, c + LIST, watched)? else {
        return Ok(None);
    };
    let start = start + n;
    Ok(Some(Located { packet, start, end }))
}

// The data unit of a packet that is not aggregated.
#[tactic(auto, unfolding(crate::specs::Packet::first_unit))]
fn first_unit(m: &[u8], payload: Payload) -> DataUnit
    ensures { result ≡ first_unit m.now payload }
{
    let blank = DataUnit {
        fields: Fields::default(),
        start: 0,
        end: 0,
    };
    if payload.aggregated {
        return blank;
    }
    match mmtp::unit::single_at(m, payload.start, payload.kind) {
        Step::Unit(u) => u,
        Step::Malformed | Step::End => blank,
    }
}

// The piece that a packet brings.
fn piece(packet: Packet, u: DataUnit) -> Piece
    requires { u.start ≤ u.end }
    ensures { result ≡ piece_from packet u }
{
    Piece {
        unit: reassembly::unit::of_packet(packet, u.fields),
        indicator: packet.payload.indicator,
        counter: packet.payload.counter,
        len: u.end - u.start,
    }
}

// A data unit's bytes come to stand in collecting memory from `at` on.
fn store_piece(collecting: &mut [u8], at: usize, m: &[u8], u: DataUnit)
    requires { Stored (length collecting.old) at (length m.now) u }
    ensures { collecting.new ≡ stored collecting.old at m.now u }
{
    wire::memory::copy_at(collecting, at, &m[u.start..u.end]);
}

// The piece's bytes go to collecting memory, where the action says so.
#[tactic(auto, unfolding(crate::specs::Packet::collected))]
fn collect(action: Action, collecting: &mut [u8], base: usize, m: &[u8], u: DataUnit)
    requires { Room action (length collecting.old) base (length m.now) u }
    ensures { collecting.new ≡ collected action collecting.old base m.now u }
{
    match action {
        Action::Nothing | Action::Whole => {}
        Action::Store(at) | Action::Complete(at) => store_piece(collecting, base + at, m, u),
    }
}

// The units that a packet gives.
#[tactic(auto, unfolding(crate::specs::Packet::give_of))]
fn give(t: &mut [u64], i: usize, j: Joined, l: Located, base: usize, u: DataUnit)
    requires { (i + 17 ≤ length t.old) × (u.start ≤ u.end) × (l.start + u.start < 18446744073709551616) × Reach j.action u }
    ensures { GiveStored t.old t.new i (give_of j.action (as_joined j) l base u) }
{
    match j.action {
        Action::Nothing | Action::Store(_) => put_none(t, i),
        Action::Whole => give_wholes(t, i, l, u),
        Action::Complete(at) => {
            let unit = j.channel.current.unit;
            let place = Place {
                memory: Memory::Collecting,
                start: base,
                len: at + (u.end - u.start),
            };
            put_one(t, i, Given { unit, place })
        }
    }
}

// The units of a packet FI 00.
fn give_wholes(t: &mut [u64], i: usize, l: Located, u: DataUnit)
    requires { (i + 17 ≤ length t.old) × (u.start ≤ u.end) × (l.start + u.start < 18446744073709551616) }
    ensures { GiveStored t.old t.new i (wholes_of l.packet.payload.aggregated l u) }
{
    let payload = l.packet.payload;
    if payload.aggregated {
        put_many(t, i, l, payload.start)
    } else {
        put_one(t, i, whole(l, u))
    }
}

// A joined packet's channel is stored; of a packet FI 00 the phase and the psn alone.
fn keep(words: &mut [u64], i: usize, packet: Packet, ch: Channel)
    requires { i + 14 ≤ length words.old }
    ensures { Keeps words.old i packet.payload.indicator ch words.new }
{
    match packet.payload.indicator {
        Indicator::Whole => store_heard(words, i, ch.phase, ch.last),
        Indicator::First | Indicator::Middle | Indicator::Last => store_channel(words, i, ch),
    }
}

// A packet is joined to the state of its packet_id, which collects from its place × R.
fn join(
    t: &mut [u64],
    i: usize,
    k: usize,
    l: Located,
    memory: &[u8],
    collecting: &mut [u8],
    rules: Rules,
)
    requires { (i + 17 ≤ k) × (k + 224 ≤ length t.old) × (l.packet.place < 16)
        × (l.packet.place * rules.limit + rules.limit ≤ length collecting.old) }
    ensures { Joins t.old i k l memory.now collecting.old rules
        t.new collecting.new }
{
    let packet = l.packet;
    let len = wire::memory::distance(l.start, l.end);
    let m = wire::memory::part(memory, l.start, len);
    let u = first_unit(m, packet.payload);
    let p = piece(packet, u);
    let at = k + CHANNEL_WORDS * packet.place;
    let ch = load_channel(t, at);
    let j = reassembly::join::join(ch, p, rules);
    let base = packet.place * rules.limit;
    collect(j.action, collecting, base, m, u);
    keep(t, at, packet, j.channel);
    let note = j.note.map_or(0, u8::from);
    put_notes(t, i, note, j.over, packet.packet_id);
    give(t, i, j, l, base, u);
}

// The TLV packet that stands from `start` to `end` comes to its packet_id; what it has yet to give takes the place of what waited there.
pub fn receive(
    t: &mut [u64],
    c: usize,
    i: usize,
    k: usize,
    memory: &[u8],
    collecting: &mut [u8],
    start: usize,
    end: usize,
)
    requires { (c + 20 ≤ i) × (i + 17 ≤ k) × (k + 224 ≤ length t.old)
        × ((read_config t.old c).watch.n * (read_config t.old c).rules.limit ≤ length collecting.old) }
    ensures { Receives (read_config t.old c) t.old i k memory.now collecting.old start end
        t.new collecting.new }
{
    match arrive(t, c, memory, start, end) {
        Ok(None) => {}
        Ok(Some(l)) => {
            let rules = load_rules(t, c);
            join(t, i, k, l, memory, collecting, rules)
        }
        Err(noted) => {
            put_notes(t, i, noted.note.into(), false, noted.packet_id);
            put_none(t, i)
        }
    }
}
