// How many bits of a message were undecided: the marks that slicing gives them, counted without being written.
ghost use Rattle.std.specs.Prelude.{◌≡◌, ◌*◌, ◌≤◌, length};
ghost use Rattle.refusals.specs.Refusals.{told};
ghost use Rattle.slicing.specs.Undecided.{undecided_in, undecided_of};

use crate::measure::{mark_of_pair, measure_at};
use place::Slicer;
use refusals::Refusal;

// Of n bits: two symbols for each.
#[tactic(auto, unfolding(crate::specs::Undecided::undecided_in, lists::specs::Bits::how_many))]
fn count_marks(symbols: &[f32], slicer: Slicer, n: usize) -> u32
    requires { (length symbols.now ≡ 4 * n) × (n ≤ 112) }
    ensures { result ≡ undecided_in slicer symbols.now n }
{
    let mut count = 0;
    for j in 0..n {
        let first = measure_at(slicer, symbols, 2 * j);
        let second = measure_at(slicer, symbols, 2 * j + 1);
        count += u32::from(mark_of_pair(first, second));
    }
    count
}

// Of a message of 14 or 7 bytes, from its symbols. Refused where they are those of another length.
#[tactic(auto, unfolding(crate::specs::Undecided::undecided_of))]
pub fn count_undecided(symbols: &[f32], slicer: Slicer) -> Result<u32, Refusal>
    ensures { told result ≡ undecided_of symbols.now slicer }
{
    match symbols.len() {
        448 => Ok(count_marks(symbols, slicer, 112)),
        224 => Ok(count_marks(symbols, slicer, 56)),
        _ => Err(Refusal::Input),
    }
}
