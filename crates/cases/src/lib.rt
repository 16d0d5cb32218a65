// A case of a sample replayed: its call is run, and what it answers is compared.
#![tactic(auto)]

ghost use Rattle.std.specs.Prelude.{◌≡◌, true};

use rerun::{NO_CALL, run};
use samples::{Case, UNTOUCHED, fill, is_answer};

// Whether the call of a case answers what the case says, and leaves what it does not write. A case that does not lie in the
// sample, or wants more space, is not the same; one whose call is not run has the number NO_CALL, and writes nothing.
pub fn is_same(case: Case, work: &mut [u8], space: &mut [u8]) -> bool
    ensures { result ≡ true → case.entry.whole ≡ true }
{
    if !case.whole {
        return false;
    }
    if space.len() < case.answer.lent {
        return false;
    }
    let out = &mut space[..case.answer.lent];
    fill(out);
    let mut values = [UNTOUCHED; 12];
    let number = run(case.call, work, out, &mut values).unwrap_or(NO_CALL);
    is_answer(case.answer, number, &values, out)
}
