// The payload header, for MPU fragments and signalling messages.
ghost use Rattle.std.specs.Prelude.{◌≡◌};
ghost use Rattle.mmtp.specs.Payload.{fragment_type_of, mpu_of, signalling_of, parsed_of};
ghost use Rattle.mmtp.specs.Payload.{counter_fits, aggregation_fits, units_fit, payload_of};

use crate::unit;
use wire::field::Field;

// The fragmentation indicator, FI: 00, 01, 10, 11.
#[derive(Clone, Copy, PartialEq, Eq)]
pub enum Indicator {
    Whole,
    First,
    Middle,
    Last,
}

impl From<u64> for Indicator {
    ghost use Rattle.std.specs.Prelude.{◌≡◌};
    ghost use Rattle.mmtp.specs.Payload.{indicator_of};

    ghost from_gives = { λ bits indicator. indicator ≡ indicator_of bits };

    #[tactic(auto, unfolding(crate::specs::Payload::indicator_of))]
    fn from(bits: u64) -> Indicator {
        match bits {
            0 => Indicator::Whole,
            1 => Indicator::First,
            2 => Indicator::Middle,
            _ => Indicator::Last,
        }
    }
}

#[derive(Clone, Copy)]
pub struct Payload {
    // 0 MPU metadata, 1 movie fragment metadata, 2 timed MFU, 3 non-timed MFU, 4 signalling. A number, since any may stand in the words.
    pub kind: u8,
    pub indicator: Indicator,
    pub counter: u8,
    // The MPU sequence number; 0 for signalling.
    pub mpu: u32,
    pub aggregated: bool,
    // Whether the lengths of aggregated units have 32 bits.
    pub wide: bool,
    // Where its data units start in the MMTP packet.
    pub start: usize,
}

// The kind of the data units of an MPU payload, by its fragment type; none for a reserved one.
#[tactic(auto, unfolding(crate::specs::Payload::fragment_type_of))]
fn fragment_type(bits: u8, timed: bool) -> Option<u8>
    ensures { result ≡ fragment_type_of bits timed }
{
    match bits {
        0 | 1 => Some(bits),
        2 if timed => Some(2),
        2 => Some(3),
        3..=0xff => None,
    }
}

// The header of an MPU payload at `at`.
#[tactic(auto, unfolding(crate::specs::Payload::mpu_of))]
fn mpu(m: &[u8], at: usize) -> Option<Payload>
    ensures { result ≡ mpu_of m.now at }
{
    let p = m.get(at..)?;
    if p.len() < 8 || usize::from(u16::read(p, 0)) != p.len() - 2 {
        return None;
    }
    let flags = p[2];
    let kind = fragment_type(flags >> 4 & 15, flags >> 3 & 1 == 1)?;
    Some(Payload {
        kind,
        indicator: Indicator::from(u64::from(flags >> 1 & 3)),
        counter: p[3],
        mpu: u32::read(p, 4),
        aggregated: flags & 1 == 1,
        wide: false,
        start: at + 8,
    })
}

// The header of a signalling payload at `at`.
#[tactic(auto, unfolding(crate::specs::Payload::signalling_of))]
fn signalling(m: &[u8], at: usize) -> Option<Payload>
    ensures { result ≡ signalling_of m.now at }
{
    let [flags, counter, ..] = *m.get(at..)? else {
        return None;
    };
    Some(Payload {
        kind: 4,
        indicator: Indicator::from(u64::from(flags >> 6 & 3)),
        counter,
        mpu: 0,
        aggregated: flags & 1 == 1,
        wide: flags >> 1 & 1 == 1,
        start: at + 2,
    })
}

#[tactic(auto, unfolding(crate::specs::Payload::parsed_of))]
fn parse(m: &[u8], at: usize, payload_type: u8) -> Option<Payload>
    ensures { result ≡ parsed_of m.now at payload_type }
{
    match payload_type {
        0 => mpu(m, at),
        2 => signalling(m, at),
        1 | 3..=0xff => None,
    }
}

// Whether the fragment counter can stand beside the indicator.
#[tactic(auto, unfolding(crate::specs::Payload::counter_fits))]
fn counter_fits(indicator: Indicator, counter: u8) -> bool
    ensures { result ≡ counter_fits indicator counter }
{
    indicator != Indicator::Last || counter == 0
}

// Only whole units are aggregated.
#[tactic(auto, unfolding(crate::specs::Payload::aggregation_fits))]
fn aggregation_fits(aggregated: bool, indicator: Indicator) -> bool
    ensures { result ≡ aggregation_fits aggregated indicator }
{
    !aggregated || indicator == Indicator::Whole
}

// Whether the data units fill the payload, each with its fields.
#[tactic(auto, unfolding(crate::specs::Payload::units_fit))]
fn units_fit(m: &[u8], p: Payload) -> bool
    ensures { result ≡ units_fit m.now p }
{
    if p.aggregated {
        unit::aggregate_fits(m, p.start, p.kind, p.wide)
    } else {
        unit::single_fits(m, p.start, p.kind)
    }
}

// The payload at `at`, its data units tested too.
#[tactic(auto, unfolding(crate::specs::Payload::payload_of, crate::specs::Payload::tested))]
pub fn read(m: &[u8], at: usize, payload_type: u8) -> Option<Payload>
    ensures { result ≡ payload_of m.now at payload_type }
{
    let p = parse(m, at, payload_type)?;
    if counter_fits(p.indicator, p.counter)
        && aggregation_fits(p.aggregated, p.indicator)
        && units_fit(m, p)
    {
        Some(p)
    } else {
        None
    }
}
