// Next: it reads on, one event a call, until nothing waits.
ghost use Rattle.std.specs.Prelude.{◌≡◌, ◌*◌, ◌≤◌, length};
ghost use Rattle.queue.specs.Event.{as_event, as_answer};
ghost use Rattle.delivery.specs.Found.{as_found};
ghost use Rattle.state.specs.Words.{state_words, state_in, Answers, Reads, Moves};
ghost use Rattle.receiver.specs.Next.{read_all, next_of};

use delivery::cursor::{Found, advance};
use delivery::packet::receive;
use frames::slot::is_short;
use intake::held::Held;
use queue::event::Event;
use queue::waiting::take;
use refusal::Refusal;
use state::places::{CHANNELS, CONFIG, CURSOR, HELD, OWED, QUEUE, STATE_WORDS};
use words::cursor::{load_cursor, store_cursor, store_held};

// What the cursor comes to; the cursor past it stands in the words.
fn advance_in(words: &mut [u64], memory: &[u8]) -> Found
    requires { state_words ≤ length words.old }
    ensures { Moves words.old memory.now (as_found result) words.new }
{
    let advanced = advance(load_cursor(words, CURSOR), memory);
    store_cursor(words, CURSOR, advanced.cursor);
    advanced.found
}

// Reads on until there is an event, or nothing waits.
pub fn read_on(words: &mut [u64], memory: &[u8], collecting: &mut [u8]) -> Option<Event>
    requires { (state_words ≤ length words.old)
        × ((state_in words.old).config.watch.n * (state_in words.old).config.rules.limit ≤ length collecting.old) }
    ensures { Reads words.old (as_event result) words.new collecting.new
        (read_all (state_in words.old) memory.now collecting.old) }
{
    loop {
        if let Some(event) = take(words, QUEUE, memory) {
            return Some(event);
        }
        match advance_in(words, memory) {
            Found::Note(number) => return Some(Event::Note(number, 0)),
            Found::Packet(start, end) => receive(
                words, CONFIG, QUEUE, CHANNELS, memory, collecting, start, end,
            ),
            Found::Tail(start, len) => {
                let held = Held {
                    on: true,
                    start,
                    len,
                };
                store_held(words, HELD, held)
            }
            Found::Done => {
                words[OWED] = 0;
                return None;
            }
        }
    }
}

// The next event.
pub fn next(
    words: &mut [u64],
    memory: &[u8],
    collecting: &mut [u8],
) -> Result<Option<Event>, Refusal>
    ensures { Answers words.old collecting.old (as_answer result) words.new collecting.new
        (next_of (state_in words.old) memory.now collecting.old) }
{
    if words.len() < STATE_WORDS {
        return Err(Refusal::StateMemory);
    }
    if is_short(words, memory.len(), collecting.len()) {
        return Err(Refusal::ShortMemory);
    }
    if words[OWED] == 0 {
        return Ok(None);
    }
    Ok(read_on(words, memory, collecting))
}
