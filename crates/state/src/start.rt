// Start: a fresh receiver, or refusals 1 to 4.
ghost use Rattle.std.specs.Prelude.{◌≡◌, ◌≤◌, length};
ghost use Rattle.refusal.specs.Refusal.{answer};
ghost use Rattle.state.specs.Words.{state_words, state_in, Starts, Fresh, Cleared};
ghost use Rattle.state.specs.Start.{twice, fresh_state, start_refusal, start_from};

use crate::places::{AT, CONFIG, STATE_WORDS};
use reassembly::config::Config;
use refusal::Refusal;
use watch::given::{Watch, lookup};
use words::config::store_config;

// Whether an id stands twice among the first `n`, at most 16.
fn has_twice(watch: Watch, n: usize) -> bool
    ensures { result ≡ twice watch n }
{
    for k in 0..n.min(16) {
        if lookup(Watch { n: k, ..watch }, watch.ids[k]).is_some() {
            return true;
        }
    }
    false
}

// Refusals 1 to 4.
#[tactic(auto, using(std::proofs::lemmas::Bool::Decides::nat_tests), unfolding(crate::specs::Start::start_refusal))]
fn check(config: Config) -> Result<(), Refusal>
    ensures { answer result ≡ start_refusal config }
{
    let watch = config.watch;
    if watch.n < 1 || 16 < watch.n {
        return Err(Refusal::WatchedCount);
    }
    if has_twice(watch, watch.n) {
        return Err(Refusal::WatchedTwice);
    }
    if 4095 < config.cid {
        return Err(Refusal::ContextId);
    }
    let limit = config.rules.limit;
    if limit < 1 || 1048576 < limit {
        return Err(Refusal::Limit);
    }
    Ok(())
}

// 0 in each of the receiver's words; those behind stay as they were.
fn clear(words: &mut [u64])
    requires { state_words ≤ length words.old }
    ensures { Cleared words.old words.new }
{
    words[..STATE_WORDS].fill(0);
}

// A receiver that has read nothing.
pub fn put_fresh(words: &mut [u64], config: Config)
    requires { state_words ≤ length words.old }
    ensures { Fresh words.old words.new (fresh_state config) }
{
    clear(words);
    store_config(words, CONFIG, config);
    words[AT] = 120;
}

pub fn start(config: Config, words: &mut [u64]) -> Result<(), Refusal>
    ensures { Starts words.old (answer result) words.new (start_from (state_in words.old) config) }
{
    if words.len() < STATE_WORDS {
        return Err(Refusal::StateMemory);
    }
    check(config)?;
    put_fresh(words, config);
    Ok(())
}
