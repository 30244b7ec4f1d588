// What start keeps of what it is given, in words.
ghost use Rattle.std.specs.Prelude.{◌≡◌, ◌+◌, ◌≤◌, length, get_or};
ghost use Rattle.words.specs.Config.{read_config, ConfigStored};

use reassembly::config::{Config, Rules};
use watch::rising::keep;

// Behind stream, CID, n and R: the watch list.
pub const LIST: usize = 4;

// The context id of the flow.
#[tactic(auto, unfolding(crate::specs::Config::read_config))]
pub fn load_cid(t: &[u64], i: usize) -> u16
    requires { i + 20 ≤ length t.now }
    ensures { result ≡ (read_config t.now i).cid }
{
    (t[i + 1] % 65536) as u16
}

// How many ids are watched.
pub fn load_count(t: &[u64], i: usize) -> u64
    requires { i + 20 ≤ length t.now }
    ensures { result ≡ get_or t.now (i + 2) 0 }
{
    t[i + 2]
}

#[tactic(auto, unfolding(crate::specs::Config::read_config))]
pub fn load_rules(t: &[u64], i: usize) -> Rules
    requires { i + 20 ≤ length t.now }
    ensures { result ≡ (read_config t.now i).rules }
{
    Rules {
        limit: t[i + 3] as usize,
    }
}

pub fn store_config(t: &mut [u64], i: usize, config: Config)
    requires { i + 20 ≤ length t.old }
    ensures { ConfigStored t.old t.new i config }
{
    t[i] = config.stream as u64;
    t[i + 1] = config.cid as u64;
    t[i + 2] = config.watch.n as u64;
    t[i + 3] = config.rules.limit as u64;
    keep(t, i + LIST, config.watch);
}
