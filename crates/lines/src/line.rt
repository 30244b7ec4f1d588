// The lines of a capture, written to a slice.
ghost use Rattle.std.specs.Prelude.{◌≡◌, ◌+◌, ◌≤◌, length};
ghost use Rattle.lines.specs.Text.{Put};
ghost use Rattle.refusal.specs.Refusal.{number_of};
ghost use Rattle.lines.specs.Line.{longest_line, field, place_text, carried_text, unit_line, id_text, note_line, refused_line, end_line};

use crate::decimal::put_decimal;
use queue::event::Given;
use reassembly::unit::Unit;
use refusal::Refusal;

// No line is longer: seven numbers of up to 20 digits, the word unit, and eight characters behind them.
pub const LONGEST: usize = 152;

// A number, and the character behind it.
fn put_field(out: &mut [u8], at: usize, n: u64, end: u8) -> usize
    requires { at + 21 ≤ length out.old }
    ensures { Put out.old at (field n end) 21 result out.new }
{
    let last = put_decimal(out, at, n);
    out[last] = end;
    last + 1
}

// A word.
fn put_word(out: &mut [u8], at: usize, word: &[u8]) -> usize
    requires { at + length word.now ≤ length out.old }
    ensures { Put out.old at word.now (length word.now) result out.new }
{
    wire::memory::copy_at(out, at, word);
    at + word.len()
}

// The frame and the slot of an event.
fn put_place(out: &mut [u8], at: usize, frame: u64, slot: u64) -> usize
    requires { at + 42 ≤ length out.old }
    ensures { Put out.old at (place_text frame slot) 42 result out.new }
{
    let next = put_field(out, at, frame, b' ');
    put_field(out, next, slot, b' ')
}

// Id, kind, psn and MPU number of a unit.
fn put_carried(out: &mut [u8], at: usize, unit: Unit) -> usize
    requires { at + 84 ≤ length out.old }
    ensures { Put out.old at (carried_text unit) 84 result out.new }
{
    let kind = put_field(out, at, u64::from(unit.packet_id), b' ');
    let psn = put_field(out, kind, u64::from(unit.kind), b' ');
    let mpu = put_field(out, psn, u64::from(unit.psn.0), b' ');
    put_field(out, mpu, u64::from(unit.mpu), b' ')
}

pub fn put_unit(out: &mut [u8], at: usize, frame: u64, slot: u64, given: Given) -> usize
    requires { at + longest_line ≤ length out.old }
    ensures { Put out.old at (unit_line frame slot given) longest_line result out.new }
{
    let word = put_place(out, at, frame, slot);
    let carried = put_word(out, word, b"unit ");
    let len = put_carried(out, carried, given.unit);
    put_field(out, len, given.place.len as u64, b'\n')
}

// The id of a note, a dash where it has none.
fn put_id(out: &mut [u8], at: usize, note: u8, id: u16) -> usize
    requires { at + 21 ≤ length out.old }
    ensures { Put out.old at (id_text note id) 21 result out.new }
{
    if note <= 51 {
        return put_word(out, at, b"-\n");
    }
    put_field(out, at, u64::from(id), b'\n')
}

pub fn put_note(out: &mut [u8], at: usize, frame: u64, slot: u64, note: u8, id: u16) -> usize
    requires { at + 89 ≤ length out.old }
    ensures { Put out.old at (note_line frame slot note id) 89 result out.new }
{
    let word = put_place(out, at, frame, slot);
    let number = put_word(out, word, b"note ");
    let last = put_field(out, number, u64::from(note), b' ');
    put_id(out, last, note, id)
}

pub fn put_refused(out: &mut [u8], at: usize, n: u8) -> usize
    requires { at + 29 ≤ length out.old }
    ensures { Put out.old at (refused_line n) 29 result out.new }
{
    let number = put_word(out, at, b"refused ");
    put_field(out, number, u64::from(n), b'\n')
}

// The same of a refusal, by its number.
pub fn put_refusal(out: &mut [u8], at: usize, refusal: Refusal) -> usize
    requires { at + 29 ≤ length out.old }
    ensures { Put out.old at (refused_line (number_of refusal)) 29 result out.new }
{
    put_refused(out, at, u8::from(refusal))
}

pub fn put_end(out: &mut [u8], at: usize, frames: u64, units: u64, notes: u64) -> usize
    requires { at + 67 ≤ length out.old }
    ensures { Put out.old at (end_line frames units notes) 67 result out.new }
{
    let first = put_word(out, at, b"end ");
    let second = put_field(out, first, frames, b' ');
    let third = put_field(out, second, units, b' ');
    put_field(out, third, notes, b'\n')
}
