// Data units: the fields that each begins with, and aggregated units one by one.
ghost use Rattle.std.specs.Prelude.{◌≡◌, ◌≤◌, length, drop};
ghost use Rattle.mmtp.specs.Unit.{field_bytes, fields_of, length_bytes, unit_length, place_behind, next_place, unit_at, single_fits, single_at, aggregate_fits};

use crate::reader;
use wire::field::Field;

// The fields of a data unit; 0 where its kind has none.
#[derive(Clone, Copy, Default)]
pub struct Fields {
    // Kind 2: the movie fragment, and the sample with the place of the data unit in it.
    pub movie_fragment: u32,
    pub sample: u32,
    pub offset: u32,
    pub priority: u8,
    pub dependency: u8,
    // Kind 3.
    pub item: u32,
}

// A data unit in an MMTP packet: its fields, and the place of its bytes behind them.
#[derive(Clone, Copy)]
pub struct DataUnit {
    pub fields: Fields,
    pub start: usize,
    pub end: usize,
}

// What stands at a place of a packet: three cases, each with its name, and so no Option.
#[derive(Clone, Copy)]
pub enum Step {
    Unit(DataUnit),
    Malformed,
    End,
}

// The bytes of the fields that each data unit of a kind begins with.
#[tactic(auto, unfolding(crate::specs::Unit::field_bytes))]
pub fn field_bytes(kind: u8) -> usize
    ensures { result ≡ field_bytes kind }
{
    match kind {
        2 => 14,
        3 => 4,
        _ => 0,
    }
}

// The fields that the data unit `u` begins with.
#[tactic(auto, unfolding(crate::specs::Unit::fields_of, crate::specs::Unit::field_bytes))]
fn fields_of(kind: u8, u: &[u8]) -> Fields
    requires { field_bytes kind ≤ length u.now }
    ensures { result ≡ fields_of kind u.now }
{
    match kind {
        2 => Fields {
            movie_fragment: u32::read(u, 0),
            sample: u32::read(u, 4),
            offset: u32::read(u, 8),
            priority: u[12],
            dependency: u[13],
            ..Fields::default()
        },
        3 => Fields {
            item: u32::read(u, 0),
            ..Fields::default()
        },
        _ => Fields::default(),
    }
}

// The bytes of the length before each aggregated unit.
#[tactic(auto, unfolding(crate::specs::Unit::length_bytes))]
fn length_bytes(wide: bool) -> usize
    ensures { result ≡ length_bytes wide }
{
    if wide { 4 } else { 2 }
}

// The length that begins `b`, of the aggregated unit behind it.
#[tactic(auto, unfolding(crate::specs::Unit::length_bytes))]
fn unit_length(b: &[u8], wide: bool) -> usize
    requires { length_bytes wide ≤ length b.now }
    ensures { result ≡ unit_length wide b.now }
{
    if wide {
        u32::read(b, 0) as usize
    } else {
        usize::from(u16::read(b, 0))
    }
}

// Where the aggregated unit at `at` ends, if it is whole and has its fields: the work of `reader::next`.
#[tactic(auto, unfolding(crate::specs::Unit::next_place, crate::specs::Unit::unit_fits, crate::specs::Unit::length_bytes))]
pub fn whole_end(m: &[u8], at: usize, kind: u8, wide: bool) -> Option<usize>
    ensures { result ≡ next_place m.now at kind wide }
{
    let b = m.get(at..)?;
    let w = length_bytes(wide);
    if b.len() < w {
        return None;
    }
    let n = unit_length(b, wide);
    if b.len() - w < n || n < field_bytes(kind) {
        return None;
    }
    Some(at + w + n)
}

// The same place; `at` itself where no whole unit stands: the work of `reader::moved`.
#[tactic(auto, using(crate::proofs::UnitLaws::next_behind, crate::proofs::UnitLaws::none_behind))]
pub fn unit_end(m: &[u8], at: usize, kind: u8, wide: bool) -> usize
    ensures { result ≡ place_behind m.now at kind wide }
{
    whole_end(m, at, kind, wide).unwrap_or(at)
}

// The aggregated unit at `at`.
#[tactic(auto, using(crate::proofs::UnitLaws::next_on, crate::proofs::UnitLaws::next_room, crate::proofs::UnitLaws::next_stays), unfolding(crate::specs::Unit::unit_at, crate::specs::Unit::data_unit))]
pub fn unit_at(m: &[u8], at: usize, kind: u8, wide: bool) -> Step
    ensures { result ≡ unit_at m.now at kind wide }
{
    if m.len() <= at {
        return Step::End;
    }
    let Some(end) = reader::next_place(m, at, kind, wide) else {
        return Step::Malformed;
    };
    let from = at + length_bytes(wide);
    Step::Unit(DataUnit {
        fields: fields_of(kind, &m[from..]),
        start: from + field_bytes(kind),
        end,
    })
}

// Whether the bytes from `at` have the fields of a data unit that is not aggregated.
#[tactic(auto, unfolding(crate::specs::Unit::single_fits))]
pub fn single_fits(m: &[u8], at: usize, kind: u8) -> bool
    ensures { result ≡ single_fits m.now at kind }
{
    at <= m.len() && field_bytes(kind) <= m.len() - at
}

// The data unit at `at` that is not aggregated: the rest of the packet.
#[tactic(auto, using(crate::proofs::UnitLaws::single_within), unfolding(crate::specs::Unit::single_at, crate::specs::Unit::single_unit))]
pub fn single_at(m: &[u8], at: usize, kind: u8) -> Step
    ensures { result ≡ single_at m.now at kind }
{
    if !single_fits(m, at, kind) {
        return Step::Malformed;
    }
    Step::Unit(DataUnit {
        fields: fields_of(kind, &m[at..]),
        start: at + field_bytes(kind),
        end: m.len(),
    })
}

// Whether the bytes from `start` are aggregated units, one or more, and nothing else.
#[tactic(auto, unfolding(crate::specs::Unit::aggregate_fits))]
pub fn aggregate_fits(m: &[u8], start: usize, kind: u8, wide: bool) -> bool
    ensures { result ≡ aggregate_fits (drop start m.now) kind wide }
{
    start < m.len() && reader::walks(m, start, kind, wide)
}
