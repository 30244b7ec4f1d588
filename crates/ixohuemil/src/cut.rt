// The slot cutter's call.
ghost use Rattle.std.specs.Prelude.{◌≡◌};
ghost use Rattle.ixohuemil.specs.Answers.{cut_call};

use cutter::slot::cut_slot;

// Copies slot `s` of `l` bytes of a run to `output`, and its pointers to `top` and `last`; answers 0. Refused, it answers 75 to 78
// and writes nothing.
#[unsafe(no_mangle)]
pub extern "C" fn ixohuemil_cut(
    run: &[u8],
    l: usize,
    s: usize,
    output: &mut [u8],
    top: &mut u16,
    last: &mut u16,
) -> u8
    ensures { (result, top.new, last.new, output.new)
        ≡ cut_call run.now l s output.old top.old last.old }
{
    match cut_slot(run, l, s, output) {
        Ok(pointers) => {
            *top = pointers.0;
            *last = pointers.1;
            0
        }
        Err(refusal) => refusal.into(),
    }
}
