// The relative streams: which one is chosen, and which one each slot has.
ghost use Rattle.std.specs.Prelude.{◌≡◌, ◌<◌, length};
ghost use Rattle.tmcc.specs.Stream.{chosen, streams_of, one_stream, relative_stream};

use crate::block::{BLOCK_BYTES, whole};
use wire::field::Field;

// How many relative streams are chosen, and the last of them.
#[derive(Clone, Copy)]
pub struct Streams {
    pub count: usize,
    pub last: u8,
}

// Whether relative stream `r` is of type TLV and has the stream id.
fn is_chosen(block: &[u8; BLOCK_BYTES], id: u16, r: u8) -> bool
    requires { r < 16 }
    ensures { result ≡ chosen block.now id r }
{
    let r = usize::from(r);
    block[25 + r] == 2 && u16::read(block, 693 + 2 * r) == id
}

// The relative streams of type TLV with the stream id.
pub fn find(block: &[u8], id: u16) -> Streams
    requires { length block.now ≡ 1178 }
    ensures { result ≡ streams_of block.now id }
{
    streams_in(whole(block), id)
}

// The same of a block as an array.
fn streams_in(block: &[u8; BLOCK_BYTES], id: u16) -> Streams
    ensures { result ≡ streams_of block.now id }
{
    let mut streams = Streams { count: 0, last: 0 };
    for r in 0..16 {
        if is_chosen(block, id, r) {
            streams = Streams {
                count: streams.count + 1,
                last: r,
            };
        }
    }
    streams
}

// The relative stream of type TLV with the stream id, if there is just one.
#[tactic(auto, unfolding(crate::specs::Stream::one_stream))]
pub(crate) fn only(block: &[u8; BLOCK_BYTES], id: u16) -> Option<u8>
    ensures { result ≡ one_stream block.now id }
{
    let streams = streams_in(block, id);
    if streams.count == 1 {
        Some(streams.last)
    } else {
        None
    }
}

// The relative stream of slot `s`, counted from 0: the high half of a byte comes first.
pub(crate) fn of_slot(block: &[u8; BLOCK_BYTES], s: usize) -> u8
    requires { s < 120 }
    ensures { result ≡ relative_stream block.now s }
{
    let pair = block[633 + s / 2];
    if s % 2 == 0 {
        pair >> 4 & 15
    } else {
        pair & 15
    }
}
