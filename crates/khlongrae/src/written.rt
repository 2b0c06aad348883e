// An answer in lent memory.
ghost use Rattle.std.specs.Prelude.{◌≡◌, length};
ghost use Rattle.search.specs.Short.{of_short};
ghost use Rattle.khlongrae.specs.Flat.{filled, written};

use refusals::number_of;
use rows::put_fields;
use rows::row::words_of;
use search::{Answer, ShortAnswer};

// Only number 0 is written.
#[tactic(auto, unfolding(crate::specs::Flat::filled, rows::specs::Rows::fields_into))]
fn fill(
    number: u32,
    found: &[u8],
    row: [u64; 10],
    pair: [f32; 2],
    message: &mut [u8],
    words: &mut [u64],
    numbers: &mut [f32],
) -> u32
    requires { (length message.old ≡ length found.now) × (length words.old ≡ 10) × (length numbers.old ≡ 2) }
    ensures { (result, message.new, words.new, numbers.new) ≡ filled number (found.now, row, pair) (message.old, words.old, numbers.old) }
{
    if number != 0 {
        return number;
    }
    number_of(put_fields(found, row, pair, message, words, numbers))
}

// An answer: number 0 with its message, words and numbers, or a number that leaves the memory as it was.
pub fn write(a: Answer, message: &mut [u8], words: &mut [u64], numbers: &mut [f32]) -> u32
    requires { (length message.old ≡ 14) × (length words.old ≡ 10) × (length numbers.old ≡ 2) }
    ensures { (result, message.new, words.new, numbers.new) ≡ written a (message.old, words.old, numbers.old) }
{
    fill(
        a.number,
        &a.message,
        words_of(a.index, a.location, a.undecided),
        [a.cn0, a.fraction],
        message,
        words,
        numbers,
    )
}

// That of a short message: the array makes it a type of its own.
pub fn write_short(
    a: ShortAnswer,
    message: &mut [u8],
    words: &mut [u64],
    numbers: &mut [f32],
) -> u32
    requires { (length message.old ≡ 7) × (length words.old ≡ 10) × (length numbers.old ≡ 2) }
    ensures { (result, message.new, words.new, numbers.new) ≡ written (of_short a) (message.old, words.old, numbers.old) }
{
    fill(
        a.number,
        &a.message,
        words_of(a.index, a.location, a.undecided),
        [a.cn0, a.fraction],
        message,
        words,
        numbers,
    )
}
