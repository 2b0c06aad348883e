// The decode: settings by value, the answers in lent memory.
ghost use Rattle.std.specs.Prelude.{◌≡◌};
ghost use Rattle.refusals.specs.Refusals.{told_number};
ghost use Rattle.search.specs.Kinds.{long, short};
ghost use Rattle.khlongrae.specs.Flat.{settings_of, lent_number, decode_into, both_into};

use crate::settings::settings_of;
use crate::written::{write, write_short};
use receiver::decode::{decode, decode_both, decode_short};
use refusals::Refusal;
use search::BothAnswers;

// What a decode of both kinds answers: a number for each.
#[repr(C)]
#[derive(Clone, Copy, Debug, PartialEq, Eq)]
pub struct FlatBoth {
    pub number: u32,
    pub short_number: u32,
}

// 2 unless the window has 2,310 numbers; then 3 unless the lent memory has these lengths.
#[tactic(auto, unfolding(crate::specs::Flat::lent_number))]
fn check_lent(
    bytes: usize,
    samples: &[f32],
    message: &[u8],
    words: &[u64],
    numbers: &[f32],
) -> Result<(), Refusal>
    ensures { told_number result ≡ lent_number bytes samples.now (message.now, words.now, numbers.now) }
{
    if samples.len() != 2310 {
        return Err(Refusal::Input);
    }
    if message.len() != bytes || words.len() != 10 || numbers.len() != 2 {
        return Err(Refusal::Output);
    }
    Ok(())
}

// Answers number 0 and writes the message (14 bytes), the whole numbers (10) and the floats (2). Any other number writes nothing.
// Refused: 2 a window that has not 2,310 numbers, 3 lent memory of another length, 4 a level above 2, 5 a threshold that is
// not finite, 6 an index below 128 or above 2^63; 1 where no message is found.
#[tactic(auto, unfolding(crate::specs::Flat::decode_into, crate::specs::Flat::lent_number, crate::specs::Flat::written_or, search::specs::Kinds::long))]
pub fn khlongrae_decode(
    samples: &[f32],
    level: u32,
    threshold: f32,
    second: f32,
    distance: u32,
    index: u64,
    message: &mut [u8],
    words: &mut [u64],
    numbers: &mut [f32],
) -> u32
    ensures { (result, message.new, words.new, numbers.new) ≡ decode_into long samples.now (settings_of level threshold second distance) index (message.old, words.old, numbers.old) }
{
    let s = settings_of(level, threshold, second, distance);
    match check_lent(14, samples, message, words, numbers) {
        Ok(()) => write(decode(samples, s, index), message, words, numbers),
        Err(refusal) => refusal.number(),
    }
}

// The same for a short message: 7 bytes. At most one bit is repaired; the thresholds are checked, and have no effect.
#[tactic(auto, unfolding(crate::specs::Flat::decode_into, crate::specs::Flat::lent_number, crate::specs::Flat::written_or, search::specs::Kinds::short))]
pub fn khlongrae_decode_short(
    samples: &[f32],
    level: u32,
    threshold: f32,
    second: f32,
    distance: u32,
    index: u64,
    message: &mut [u8],
    words: &mut [u64],
    numbers: &mut [f32],
) -> u32
    ensures { (result, message.new, words.new, numbers.new) ≡ decode_into short samples.now (settings_of level threshold second distance) index (message.old, words.old, numbers.old) }
{
    let s = settings_of(level, threshold, second, distance);
    match check_lent(7, samples, message, words, numbers) {
        Ok(()) => write_short(decode_short(samples, s, index), message, words, numbers),
        Err(refusal) => refusal.number(),
    }
}

// Both: what each of the two calls answers and writes. Where the window or any of the lent memory has another length, both numbers say so.
#[tactic(auto, unfolding(crate::specs::Flat::both_into, crate::specs::Flat::lent_number, crate::specs::Flat::written_or, search::specs::Kinds::long, search::specs::Kinds::short))]
pub fn khlongrae_decode_both(
    samples: &[f32],
    level: u32,
    threshold: f32,
    second: f32,
    distance: u32,
    index: u64,
    message: &mut [u8],
    words: &mut [u64],
    numbers: &mut [f32],
    short_message: &mut [u8],
    short_words: &mut [u64],
    short_numbers: &mut [f32],
) -> FlatBoth
    ensures { (result, message.new, words.new, numbers.new, short_message.new, short_words.new, short_numbers.new) ≡ both_into samples.now (settings_of level threshold second distance) index (message.old, words.old, numbers.old) (short_message.old, short_words.old, short_numbers.old) }
{
    let lent = check_lent(14, samples, message, words, numbers).and_then(|()| check_lent(
        7,
        samples,
        short_message,
        short_words,
        short_numbers,
    ));
    let s = settings_of(level, threshold, second, distance);
    match lent {
        Ok(()) => {
            let BothAnswers { long, short } = decode_both(samples, s, index);
            let number = write(long, message, words, numbers);
            let short_number = write_short(short, short_message, short_words, short_numbers);
            FlatBoth {
                number,
                short_number,
            }
        }
        Err(refusal) => {
            let number = refusal.number();
            FlatBoth {
                number,
                short_number: number,
            }
        }
    }
}
