// The states of packet_ids in words that the caller lends. A part's place `i` stays beside the memory, since the definitions say which words
// of the whole memory are read and put.
ghost use Rattle.std.specs.Prelude.{◌≡◌, ◌+◌, ◌≤◌, length};
ghost use Rattle.words.specs.Channel.{phase_of, read_fields, read_unit, read_channel};
ghost use Rattle.words.specs.Channel.{FieldsStored, UnitStored, HeardStored, ChannelStored};

use mmtp::header::Psn;
use mmtp::unit::Fields;
use reassembly::channel::{Channel, OpenUnit, Phase};
use reassembly::unit::Unit;

// The words of one packet_id's state.
pub const CHANNEL_WORDS: usize = 14;

// The phase of a number; every number from 3 on is Open. A function, since `Phase` is not of this crate.
#[tactic(auto, unfolding(crate::specs::Channel::phase_of))]
fn phase_of(n: u64) -> Phase
    ensures { result ≡ phase_of n }
{
    match n {
        0 => Phase::Unheard,
        1 => Phase::Waiting,
        2 => Phase::Idle,
        _ => Phase::Open,
    }
}

// The fields whose words start at `i`.
#[tactic(auto, unfolding(crate::specs::Channel::read_fields))]
fn load_fields(t: &[u64], i: usize) -> Fields
    requires { i + 6 ≤ length t.now }
    ensures { result ≡ read_fields t.now i }
{
    Fields {
        movie_fragment: (t[i] % 4294967296) as u32,
        sample: (t[i + 1] % 4294967296) as u32,
        offset: (t[i + 2] % 4294967296) as u32,
        priority: (t[i + 3] % 256) as u8,
        dependency: (t[i + 4] % 256) as u8,
        item: (t[i + 5] % 4294967296) as u32,
    }
}

// What a unit carries, whose words start at `i`.
#[tactic(auto, unfolding(crate::specs::Channel::read_unit))]
pub fn load_unit(t: &[u64], i: usize) -> Unit
    requires { i + 10 ≤ length t.now }
    ensures { result ≡ read_unit t.now i }
{
    Unit {
        packet_id: (t[i] % 65536) as u16,
        kind: (t[i + 1] % 256) as u8,
        psn: Psn((t[i + 2] % 4294967296) as u32),
        mpu: (t[i + 3] % 4294967296) as u32,
        fields: load_fields(t, i + 4),
    }
}

// The state of a packet_id, whose words start at `i`.
#[tactic(auto, unfolding(crate::specs::Channel::read_channel))]
pub fn load_channel(t: &[u64], i: usize) -> Channel
    requires { i + 14 ≤ length t.now }
    ensures { result ≡ read_channel t.now i }
{
    Channel {
        phase: phase_of(t[i]),
        last: Psn((t[i + 1] % 4294967296) as u32),
        current: OpenUnit {
            unit: load_unit(t, i + 2),
            counter: (t[i + 12] % 256) as u8,
            len: t[i + 13] as usize,
        },
    }
}

fn store_fields(t: &mut [u64], i: usize, fields: Fields)
    requires { i + 6 ≤ length t.old }
    ensures { FieldsStored t.old t.new i fields }
{
    t[i] = fields.movie_fragment as u64;
    t[i + 1] = fields.sample as u64;
    t[i + 2] = fields.offset as u64;
    t[i + 3] = fields.priority as u64;
    t[i + 4] = fields.dependency as u64;
    t[i + 5] = fields.item as u64;
}

pub fn store_unit(t: &mut [u64], i: usize, unit: Unit)
    requires { i + 10 ≤ length t.old }
    ensures { UnitStored t.old t.new i unit }
{
    t[i] = unit.packet_id as u64;
    t[i + 1] = unit.kind as u64;
    t[i + 2] = unit.psn.0 as u64;
    t[i + 3] = unit.mpu as u64;
    store_fields(t, i + 4, unit.fields);
}

// The phase of a packet_id, as its place among the phases, and the last psn.
pub fn store_heard(t: &mut [u64], i: usize, phase: Phase, last: Psn)
    requires { i + 2 ≤ length t.old }
    ensures { HeardStored t.old t.new i phase last }
{
    t[i] = phase as u64;
    t[i + 1] = last.0 as u64;
}

pub fn store_channel(t: &mut [u64], i: usize, ch: Channel)
    requires { i + 14 ≤ length t.old }
    ensures { ChannelStored t.old t.new i ch }
{
    store_heard(t, i, ch.phase, ch.last);
    store_unit(t, i + 2, ch.current.unit);
    t[i + 12] = ch.current.counter as u64;
    t[i + 13] = ch.current.len as u64;
}
