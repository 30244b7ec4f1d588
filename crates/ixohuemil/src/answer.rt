// What a call of C linkage answers: 0, or the number of its refusal.
ghost use Rattle.std.specs.Prelude.{◌≡◌};
ghost use Rattle.refusal.specs.Refusal.{answer};
ghost use Rattle.calls.specs.Words.{given_or};

use refusal::Refusal;

pub(crate) fn answered(done: Result<(), Refusal>) -> u8
    ensures { result ≡ answer done }
{
    match done {
        Ok(()) => 0,
        Err(refusal) => refusal.into(),
    }
}

// The same of a call that gives how many; that number comes to `count`.
pub(crate) fn counted(given: Result<usize, Refusal>, count: &mut u64) -> u8
    ensures answer { result ≡ answer given }
    ensures count { count.new ≡ given_or given count.old }
{
    match given {
        Ok(n) => {
            *count = n as u64;
            0
        }
        Err(refusal) => refusal.into(),
    }
}
