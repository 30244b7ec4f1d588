// Frame and lost frame.
ghost use Rattle.std.specs.Prelude.{◌≡◌, [], ◌≤◌, length};
ghost use Rattle.refusal.specs.Refusal.{answer};
ghost use Rattle.state.specs.State.{with_intake};
ghost use Rattle.state.specs.Words.{state_words, state_in, Sets, Leaves};
ghost use Rattle.frames.specs.Frame.{frame_busy, loss_of, frame_of, lost_frame_of};

use intake::held::Intake;
use refusal::Refusal;
use state::places::{AT, CONFIG, CURSOR, HELD, OWED, STATE_WORDS, put_frame};
use words::cursor::{load_held, store_cursor, store_held};

// Whether slots are due or next is owed.
#[tactic(auto, using(std::proofs::lemmas::Bool::Decides::nat_tests), unfolding(crate::specs::Frame::frame_busy, state::specs::Words::state_in, wire::specs::Words::flag_of))]
fn is_busy(words: &[u64]) -> bool
    requires { state_words ≤ length words.now }
    ensures { result ≡ frame_busy (state_in words.now) }
{
    words[AT] < 120 || words[OWED] != 0
}

// The control block of a frame whose 120 slots follow.
pub fn frame(words: &mut [u64], block: &[u8]) -> Result<(), Refusal>
    ensures { Leaves words.old [] (answer result) words.new [] (frame_of (state_in words.old) block.now, []) }
{
    if words.len() < STATE_WORDS {
        return Err(Refusal::StateMemory);
    }
    if block.len() != tmcc::block::BLOCK_BYTES {
        return Err(Refusal::BlockLength);
    }
    if is_busy(words) {
        return Err(Refusal::Busy);
    }
    let layout = tmcc::block::decode(block, (words[CONFIG] % 65536) as u16)?;
    put_frame(words, layout);
    Ok(())
}

// What a slot leaves is in the words.
pub(crate) fn settle(words: &mut [u64], taken: Intake)
    requires { state_words ≤ length words.old }
    ensures { Sets words.old words.new (with_intake (state_in words.old) taken) }
{
    store_held(words, HELD, taken.held);
    store_cursor(words, CURSOR, taken.cursor);
}

// An own live slot is lost, and next is owed.
pub(crate) fn lose(words: &mut [u64])
    requires { state_words ≤ length words.old }
    ensures { Sets words.old words.new (loss_of (state_in words.old)) }
{
    let lost = intake::slot::lose(load_held(words, HELD));
    settle(words, lost);
    words[OWED] = 1;
}

// A lost frame, read as one lost own live slot.
pub fn lost_frame(words: &mut [u64]) -> Result<(), Refusal>
    ensures { Leaves words.old [] (answer result) words.new [] (lost_frame_of (state_in words.old), []) }
{
    if words.len() < STATE_WORDS {
        return Err(Refusal::StateMemory);
    }
    if is_busy(words) {
        return Err(Refusal::Busy);
    }
    lose(words);
    Ok(())
}
