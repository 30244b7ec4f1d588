// What a receiver is started with.
use watch::given::Watch;

#[derive(Clone, Copy)]
pub struct Config {
    // The stream id of the TLV stream.
    pub stream: u16,
    // The context id of the flow.
    pub cid: u16,
    pub watch: Watch,
    pub rules: Rules,
}

// What joining goes by, beside the packet.
#[derive(Clone, Copy)]
pub struct Rules {
    // R: the most bytes of a joined unit.
    pub limit: usize,
}
