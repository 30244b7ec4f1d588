// The state of one watched packet_id, and its packet sequence numbers.
ghost use Rattle.std.specs.Prelude.{◌≡◌};
ghost use Rattle.reassembly.specs.Channel.{next_psn, gap, unheard};

use crate::unit::Unit;
use mmtp::header::Psn;

#[derive(Clone, Copy, PartialEq, Eq, Default)]
pub enum Phase {
    #[default]
    Unheard,
    Waiting,
    Idle,
    Open,
}

// An open unit: what it carries, its last piece's counter, and how many bytes it has.
#[derive(Clone, Copy, Default)]
pub struct OpenUnit {
    pub unit: Unit,
    pub counter: u8,
    pub len: usize,
}

// `last` counts where the packet_id was heard, `current` where the phase is Open.
#[derive(Clone, Copy, Default)]
pub struct Channel {
    pub phase: Phase,
    pub last: Psn,
    pub current: OpenUnit,
}

// A packet_id of which nothing was heard.
#[tactic(auto, unfolding(crate::specs::Channel::unheard))]
pub fn fresh() -> Channel
    ensures { result ≡ unheard }
{
    Channel::default()
}

// The psn that follows.
#[tactic(auto, unfolding(crate::specs::Channel::next_psn))]
fn next_psn(p: Psn) -> Psn
    ensures { result ≡ next_psn p }
{
    Psn(p.0.wrapping_add(1))
}

// Whether packets are missing between the last one heard and this one.
#[tactic(auto, unfolding(crate::specs::Channel::heard, crate::specs::Channel::gap))]
pub fn is_gap(ch: Channel, psn: Psn) -> bool
    ensures { result ≡ gap ch psn }
{
    ch.phase != Phase::Unheard && psn != next_psn(ch.last)
}
