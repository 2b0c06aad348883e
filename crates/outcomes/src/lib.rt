// Every public contract fixes its outcome: the law and the table of its uses stand in proofs/.
// `exchange` is a sample. `samples` has its code under contracts that leave something open, which are not fixed, and in other words, which is.
#![tactic(auto)]

ghost use Rattle.std.specs.Prelude.{◌≡◌};
ghost use Rattle.outcomes.specs.Sample.{exchanged};

mod samples;

use std::mem;

pub fn exchange(held: &mut u8, x: u8) -> u8
    ensures { (result, held.new) ≡ exchanged held.old x }
{
    mem::replace(held, x)
}
