// The control block as a whole: its layout, or the first refusal that it meets.
ghost use Rattle.std.specs.Prelude.{◌≡◌, length};
ghost use Rattle.tmcc.specs.Block.{decode_of};
ghost use Rattle.tmcc.specs.Decoded.{as_decoded};

use crate::layout::Layout;
use crate::{layout, mode, stream};
use refusal::Refusal;

// The bytes of a control block.
pub const BLOCK_BYTES: usize = 1178;

// A block that is as long as one, as an array.
pub(crate) fn whole(block: &[u8]) -> &[u8; BLOCK_BYTES]
    requires { length block.now ≡ 1178 }
    ensures { result.now ≡ block.now }
{
    <&[u8; BLOCK_BYTES]>::try_from(block).unwrap()
}

// The layout for the stream with this id.
pub fn decode(block: &[u8], id: u16) -> Result<Layout, Refusal>
    ensures { as_decoded result ≡ decode_of block.now id }
{
    let Ok(block) = <&[u8; BLOCK_BYTES]>::try_from(block) else {
        return Err(Refusal::BlockLength);
    };
    if !mode::keep_rules(block) {
        return Err(Refusal::Modes);
    }
    let Some(own) = stream::only(block, id) else {
        return Err(Refusal::Stream);
    };
    let layout = layout::layout_in(block, own);
    if !layout::has_own(&layout) {
        return Err(Refusal::NoSlot);
    }
    Ok(layout)
}
