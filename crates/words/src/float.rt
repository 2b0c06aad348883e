// Floats by their bits. Every NaN counts as one: it is read from each of its patterns and written as 7FC00000.
ghost use Rattle.std.specs.Prelude.{◌≡◌};
ghost use Rattle.std.specs.Float.{binary32};
ghost use Rattle.std.specs.Float.Ieee.{of_bits, to_bits};
ghost use Rattle.words.specs.Words.{window_floats};

use crate::numbers::word;
use std::num::{f32_from_bits_with_nan, f32_to_bits_with_nan};

// The float of a bit pattern.
pub fn float_of(bits: u32) -> f32
    ensures { result ≡ of_bits binary32 bits }
{
    f32_from_bits_with_nan(bits)
}

// The bit pattern of a float.
pub fn bits_of(x: f32) -> u32
    ensures { result ≡ to_bits binary32 x }
{
    f32_to_bits_with_nan(x)
}

// The 2,310 floats of a window's 9,240 bytes. Refused: 2 other bytes, 3 another output.
#[tactic(auto, using(lists::proofs::Table::done_none), unfolding(crate::specs::Words::window_floats))]
pub fn window_floats(bytes: &[u8], out: &mut [f32]) -> u32
    ensures { (result, out.new) ≡ window_floats bytes.now out.old }
{
    if bytes.len() != 9240 {
        return 2;
    }
    if out.len() != 2310 {
        return 3;
    }
    let (words, _) = bytes.as_chunks::<4>();
    for (k, x) in out.iter_mut().enumerate() {
        *x = float_of(word(words[k]));
    }
    0
}
