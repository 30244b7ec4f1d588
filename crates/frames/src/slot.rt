// Slot, with its data or lost.
ghost use Rattle.std.specs.Prelude.{◌≡◌, [], ◌≤◌, ◌<◌, length};
ghost use Rattle.refusal.specs.Refusal.{answer};
ghost use Rattle.state.specs.Words.{state_words, state_in, Sets, Leaves};
ghost use Rattle.frames.specs.Slot.{short_by, slot_refusal, counted, wrong_length, slot_of, lost_slot_of};

use crate::frame::{lose, settle};
use intake::slot::{MAX_SLOT, SLOT_AREA};
use refusal::Refusal;
use state::places::{AT, CONFIG, HELD, OWED, STATE_WORDS, is_own, length_at, pointers_at};
use words::cursor::load_held;

// Whether packet memory has fewer than 21,433 bytes, or collecting memory fewer than n × R.
pub fn is_short(words: &[u64], packet: usize, collecting: usize) -> bool
    requires { state_words ≤ length words.now }
    ensures { result ≡ short_by (state_in words.now).config packet collecting }
{
    if packet < SLOT_AREA + MAX_SLOT {
        return true;
    }
    let n = words[CONFIG + 2] as usize;
    let limit = words[CONFIG + 3] as usize;
    limit != 0 && collecting / limit < n
}

// Refusals 20, 21 and 22.
#[tactic(auto, using(std::proofs::lemmas::Bool::Decides::nat_tests), unfolding(crate::specs::Slot::slot_refusal, state::specs::Words::state_in, wire::specs::Words::flag_of))]
fn check(words: &[u64], packet: usize, collecting: usize) -> Result<(), Refusal>
    requires { state_words ≤ length words.now }
    ensures { answer result ≡ slot_refusal (state_in words.now) packet collecting }
{
    if 120 <= words[AT] {
        return Err(Refusal::NoneDue);
    }
    if words[OWED] != 0 {
        return Err(Refusal::Owed);
    }
    if is_short(words, packet, collecting) {
        return Err(Refusal::ShortMemory);
    }
    Ok(())
}

// The slot is counted, and next is owed.
fn count(words: &mut [u64])
    requires { (state_words ≤ length words.old) × ((state_in words.old).frame.at < 120) }
    ensures { Sets words.old words.new (counted (state_in words.old)) }
{
    words[AT] += 1;
    words[OWED] = 1;
}

// Whether a slot's data has another length than its mode's, or than any slot's.
#[tactic(auto, using(std::proofs::lemmas::Bool::Decides::nat_tests), unfolding(crate::specs::Slot::wrong_length))]
fn is_wrong(length: u64, len: usize) -> bool
    ensures { result ≡ wrong_length length len }
{
    MAX_SLOT < len || len as u64 != length
}

// The slot that is due, with its bytes.
pub fn slot(
    words: &mut [u64],
    packet: &mut [u8],
    collecting: &[u8],
    bytes: &[u8],
) -> Result<(), Refusal>
    ensures { Leaves words.old packet.old (answer result) words.new packet.new
        (slot_of (state_in words.old) packet.old collecting.now bytes.now) }
{
    if words.len() < STATE_WORDS {
        return Err(Refusal::StateMemory);
    }
    check(words, packet.len(), collecting.len())?;
    let at = words[AT] as usize;
    if is_wrong(length_at(words, at), bytes.len()) {
        return Err(Refusal::SlotLength);
    }
    let own = is_own(words, at);
    let pointers = pointers_at(words, at);
    count(words);
    if own {
        let taken = intake::slot::take(load_held(words, HELD), packet, bytes, pointers);
        settle(words, taken);
    }
    Ok(())
}

// The slot that is due, lost.
pub fn lost_slot(words: &mut [u64], packet: &[u8], collecting: &[u8]) -> Result<(), Refusal>
    ensures { Leaves words.old [] (answer result) words.new []
        (lost_slot_of (state_in words.old) (length packet.now) (length collecting.now), []) }
{
    if words.len() < STATE_WORDS {
        return Err(Refusal::StateMemory);
    }
    check(words, packet.len(), collecting.len())?;
    let own = is_own(words, words[AT] as usize);
    count(words);
    if own {
        lose(words);
    }
    Ok(())
}
