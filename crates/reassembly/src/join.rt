// One step of reassembly: a packet's piece comes to the state of its packet_id.
ghost use Rattle.std.specs.Prelude.{◌≡◌, ◌+◌, ◌<◌};
ghost use Rattle.reassembly.specs.declared.channel.Phase.TheVariants.{Waiting};
ghost use Rattle.reassembly.specs.Joined.{as_number, as_joined};
ghost use Rattle.reassembly.specs.Join.{interrupted, kept, given, begun, counter_follows, grown, extended, followed};
ghost use Rattle.reassembly.specs.Join.{acted, heard_at, join_of};

use crate::channel::{Channel, OpenUnit, Phase, is_gap};
use crate::config::Rules;
use crate::note::JoinNote;
use crate::unit::{Unit, agree};
use mmtp::header::Psn;
use mmtp::payload::Indicator;

// The first piece of a packet: what a unit that it begins carries, how it stands in its unit, and its length.
#[derive(Clone, Copy)]
pub struct Piece {
    pub unit: Unit,
    pub indicator: Indicator,
    pub counter: u8,
    pub len: usize,
}

// What is to be done with a packet's bytes.
#[derive(Clone, Copy)]
pub enum Action {
    Nothing,
    // Its data units are units.
    Whole,
    // Its piece is collected from this place on.
    Store(usize),
    // The same, and the open unit is complete.
    Complete(usize),
}

#[derive(Clone, Copy)]
pub struct Joined {
    pub channel: Channel,
    // A note but the last.
    pub note: Option<JoinNote>,
    // The bytes are above R: this note comes after the other.
    pub over: bool,
    pub action: Action,
}

// The note where an open unit is dropped.
#[tactic(auto, unfolding(crate::specs::Join::interrupted))]
fn interruption(phase: Phase) -> Option<JoinNote>
    ensures { as_number result ≡ interrupted phase }
{
    if phase == Phase::Open {
        Some(JoinNote::Interrupted)
    } else {
        None
    }
}

// The channel waiting, with a note and nothing to be done.
fn keep(ch: Channel, note: Option<JoinNote>, over: bool) -> Joined
    ensures { as_joined result ≡ kept ch Waiting (as_number note) over }
{
    Joined {
        channel: Channel {
            phase: Phase::Waiting,
            ..ch
        },
        note,
        over,
        action: Action::Nothing,
    }
}

// FI 00: the packet's data units are given.
fn give(ch: Channel, note: Option<JoinNote>) -> Joined
    ensures { as_joined result ≡ given ch (as_number note) }
{
    Joined {
        channel: Channel {
            phase: Phase::Idle,
            ..ch
        },
        note,
        over: false,
        action: Action::Whole,
    }
}

// FI 01: a unit is opened.
#[tactic(auto, unfolding(crate::specs::Join::begun))]
fn begin(ch: Channel, p: Piece, rules: Rules, note: Option<JoinNote>) -> Joined
    ensures { as_joined result ≡ begun ch p rules (as_number note) }
{
    if rules.limit < p.len {
        return keep(ch, note, true);
    }
    let current = OpenUnit {
        unit: p.unit,
        counter: p.counter,
        len: p.len,
    };
    Joined {
        channel: Channel {
            phase: Phase::Open,
            current,
            ..ch
        },
        note,
        over: false,
        action: Action::Store(0),
    }
}

// Whether a piece's counter is one lower than the one before, modulo 256.
#[tactic(auto, unfolding(crate::specs::Join::counter_follows))]
fn counter_follows(before: u8, counter: u8) -> bool
    ensures { result ≡ counter_follows before counter }
{
    before == counter.wrapping_add(1)
}

// The open unit with this piece behind it.
#[tactic(auto, unfolding(crate::specs::Join::grown))]
fn grow(ch: Channel, p: Piece, last: bool) -> Joined
    requires { ch.current.len + p.len < 18446744073709551616 }
    ensures { as_joined result ≡ grown ch p last }
{
    let at = ch.current.len;
    let (phase, action) = if last {
        (Phase::Idle, Action::Complete(at))
    } else {
        (Phase::Open, Action::Store(at))
    };
    let current = OpenUnit {
        counter: p.counter,
        len: at + p.len,
        ..ch.current
    };
    Joined {
        channel: Channel {
            phase,
            current,
            ..ch
        },
        note: None,
        over: false,
        action,
    }
}

// FI 10, or with `last` FI 11, while a unit is open.
#[tactic(auto, unfolding(crate::specs::Join::extended))]
fn extend(ch: Channel, p: Piece, rules: Rules, last: bool) -> Joined
    ensures { as_joined result ≡ extended ch p rules last }
{
    let open = ch.current;
    if !agree(open.unit, p.unit) || !counter_follows(open.counter, p.counter) {
        return keep(ch, Some(JoinNote::Apart), false);
    }
    if rules.limit < p.len || rules.limit - p.len < open.len {
        return keep(ch, None, true);
    }
    grow(ch, p, last)
}

// FI 10, or with `last` FI 11.
#[tactic(auto, unfolding(crate::specs::Join::followed))]
fn follow(ch: Channel, p: Piece, rules: Rules, last: bool) -> Joined
    ensures { as_joined result ≡ followed ch p rules last }
{
    match ch.phase {
        Phase::Unheard | Phase::Waiting => keep(ch, None, false),
        Phase::Idle => keep(ch, Some(JoinNote::Headless), false),
        Phase::Open => extend(ch, p, rules, last),
    }
}

// (c): by the indicator and the phase.
#[tactic(auto, unfolding(crate::specs::Join::acted))]
fn act(ch: Channel, p: Piece, rules: Rules) -> Joined
    ensures { as_joined result ≡ acted ch p rules }
{
    match p.indicator {
        Indicator::Whole => give(ch, interruption(ch.phase)),
        Indicator::First => begin(ch, p, rules, interruption(ch.phase)),
        Indicator::Middle => follow(ch, p, rules, false),
        Indicator::Last => follow(ch, p, rules, true),
    }
}

// (a) a gap makes it waiting, (b) the psn is recorded.
#[tactic(auto, unfolding(crate::specs::Join::heard_at))]
fn hear(ch: Channel, psn: Psn, gap: bool) -> Channel
    ensures { result ≡ heard_at ch psn gap }
{
    Channel {
        phase: if gap { Phase::Waiting } else { ch.phase },
        last: psn,
        ..ch
    }
}

// (a), (b), and (c) the piece is read. `act` is called at one place, so that it can be inlined.
#[tactic(auto, unfolding(crate::specs::Join::heard_at, crate::specs::Join::join_of))]
pub fn join(ch: Channel, p: Piece, rules: Rules) -> Joined
    ensures { as_joined result ≡ join_of ch p rules }
{
    let psn = p.unit.psn;
    let gap = is_gap(ch, psn);
    let heard = hear(ch, psn, gap);
    let joined = act(heard, p, rules);
    if gap {
        return Joined {
            note: Some(JoinNote::Gap),
            ..joined
        };
    }
    joined
}
