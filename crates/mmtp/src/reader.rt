// A reader over an aggregate: it holds the packet and a place in it, and walks the data units one by one.
ghost use Rattle.std.specs.Prelude.{◌≡◌, IfSome, drop, option_map};
ghost use Rattle.mmtp.specs.Unit.{place_behind, next_place, aggregate};

use crate::unit;

// An MMTP packet, and where the next unit of its aggregate begins.
#[derive(Clone, Copy)]
pub struct UnitReader<'a> {
    pub packet: &'a [u8],
    pub at: usize,
}

pub fn reader_at<'a>(packet: &'a [u8], at: usize) -> UnitReader<'a>
    ensures { (result.packet ≡ packet.entry) × (result.at ≡ at) }
{
    UnitReader { packet, at }
}

// The reader behind the unit that it stands at; none where no whole unit stands.
pub fn next<'a>(reader: UnitReader<'a>, kind: u8, wide: bool) -> Option<UnitReader<'a>>
    ensures packet { IfSome result (λ next. next.packet ≡ reader.entry.packet) }
    ensures place { option_map (λ next. next.at) result ≡ next_place reader.entry.packet.now reader.entry.at kind wide }
{
    let at = unit::whole_end(reader.packet, reader.at, kind, wide)?;
    Some(UnitReader { at, ..reader })
}

// The place of the reader that is made at `at` and has gone on: what a function uses that has the place of a unit as a number.
pub fn next_place(packet: &[u8], at: usize, kind: u8, wide: bool) -> Option<usize>
    ensures { result ≡ next_place packet.now at kind wide }
{
    let reader = next(reader_at(packet, at), kind, wide)?;
    Some(reader.at)
}

// The reader moved behind the unit that it stands at. Where no whole unit stands, it stays.
pub fn moved<'a>(reader: UnitReader<'a>, kind: u8, wide: bool) -> UnitReader<'a>
    ensures { (result.packet ≡ reader.entry.packet) × (result.at ≡ place_behind reader.entry.packet.now reader.entry.at kind wide) }
{
    let at = unit::unit_end(reader.packet, reader.at, kind, wide);
    UnitReader { at, ..reader }
}

// Where a reader stands that is made at `at` and moved.
pub fn place_behind(packet: &[u8], at: usize, kind: u8, wide: bool) -> usize
    ensures { result ≡ place_behind packet.now at kind wide }
{
    moved(reader_at(packet, at), kind, wide).at
}

// Whether the packet from `start` on is whole units and nothing else: a reader is moved from unit to unit to the last.
#[tactic(auto, using(crate::proofs::UnitLaws::next_walks, crate::proofs::UnitLaws::next_stands))]
pub fn walks(packet: &[u8], start: usize, kind: u8, wide: bool) -> bool
    ensures { result ≡ (aggregate (drop start packet.now) kind wide).fits }
{
    let mut reader = reader_at(packet, start);
    while let Some(behind) = next(reader, kind, wide) {
        reader = behind;
    }
    packet.len() <= reader.at
}
