// A slot cut from a run, or the first refusal that the call meets.
ghost use Rattle.std.specs.Prelude.{◌≡◌, length};
ghost use Rattle.refusal.specs.Refusal.{answer};
ghost use Rattle.cutter.specs.Cut.{as_cut};
ghost use Rattle.cutter.specs.Slot.{whole, unlisted, cut_refusal, slot_cut};

use refusal::Refusal;
use tmcc::layout::Pointers;
use tmcc::mode::data_bytes;

// Whether a run is whole TLV packets with good first bytes.
fn is_whole(run: &[u8]) -> bool
    ensures { result ≡ whole run.now }
{
    tlv::packet::walk(run, 0) == Some(run.len())
}

// Whether no code rate has `l` data bytes.
fn is_unlisted(l: usize) -> bool
    ensures { result ≡ unlisted l }
{
    (1..12).all(|rate| usize::from(data_bytes(rate)) != l)
}

// The first refusal that such a call meets. `n` is the output's length.
fn test(run: &[u8], l: usize, s: usize, n: usize) -> Result<(), Refusal>
    ensures { answer result ≡ cut_refusal run.now l s n }
{
    if !is_whole(run) {
        return Err(Refusal::Run);
    }
    if is_unlisted(l) {
        return Err(Refusal::SlotSize);
    }
    // The slots that the run fills: the product (s + 1) × L may not fit.
    if run.len() / l <= s {
        return Err(Refusal::SlotNumber);
    }
    if n != l {
        return Err(Refusal::SlotOutput);
    }
    Ok(())
}

// Copies slot `s` of `l` bytes of a run to `output`, and gives its pointers.
pub fn cut_slot(run: &[u8], l: usize, s: usize, output: &mut [u8]) -> Result<Pointers, Refusal>
    ensures { (as_cut result, output.new) ≡ slot_cut run.now l s output.old }
{
    test(run, l, s, output.len())?;
    let from = s * l;
    let pointers = crate::pointers::find(run, from, l);
    wire::memory::copy_at(output, 0, &run[from..from + l]);
    Ok(pointers)
}
