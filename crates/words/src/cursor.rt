// Held bytes and the cursor, in words that the caller lends.
ghost use Rattle.std.specs.Prelude.{◌≡◌, ◌+◌, ◌≤◌, length};
ghost use Rattle.wire.specs.Words.{Put};
ghost use Rattle.words.specs.Cursor.{read_held, held_words, read_cursor, CursorStored};

use intake::held::{Cursor, Held};

#[tactic(auto, unfolding(crate::specs::Cursor::read_held, wire::specs::Words::flag_of))]
pub fn load_held(t: &[u64], i: usize) -> Held
    requires { i + 3 ≤ length t.now }
    ensures { result ≡ read_held t.now i }
{
    Held {
        on: t[i] != 0,
        start: t[i + 1] as usize,
        len: t[i + 2] as usize,
    }
}

pub fn store_held(t: &mut [u64], i: usize, held: Held)
    requires { i + 3 ≤ length t.old }
    ensures { Put t.old t.new i 3 (held_words held) }
{
    t[i] = u64::from(held.on);
    t[i + 1] = held.start as u64;
    t[i + 2] = held.len as u64;
}

#[tactic(auto, unfolding(crate::specs::Cursor::read_cursor, wire::specs::Words::flag_of))]
pub fn load_cursor(t: &[u64], i: usize) -> Cursor
    requires { i + 5 ≤ length t.now }
    ensures { result ≡ read_cursor t.now i }
{
    Cursor {
        note: (t[i] % 256) as u8,
        packet: t[i + 1] as usize,
        reading: t[i + 2] != 0,
        at: t[i + 3] as usize,
        end: t[i + 4] as usize,
    }
}

pub fn store_cursor(t: &mut [u64], i: usize, c: Cursor)
    requires { i + 5 ≤ length t.old }
    ensures { CursorStored t.old t.new i c }
{
    t[i] = c.note as u64;
    t[i + 1] = c.packet as u64;
    t[i + 2] = u64::from(c.reading);
    t[i + 3] = c.at as u64;
    t[i + 4] = c.end as u64;
}
