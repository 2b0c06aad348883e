// Symbol sums: four samples each, at four clock phases.
ghost use Rattle.std.specs.Prelude.{◌≡◌, length};
ghost use Rattle.refusals.specs.Refusals.{told_number};
ghost use Rattle.kernels.specs.Symbols.{sums_of, summed, symbols_in, set_out, accumulated};

use refusals::Refusal;

// Neighbours are summed side by side: each number, and the next three of its part.
fn sum_all(samples: &[f32], sums: &mut [f32])
    requires { (length samples.now ≡ 2310) × (length sums.old ≡ 2304) }
    ensures { sums.new ≡ sums_of samples.now }
{
    for (i, sum) in sums.iter_mut().enumerate() {
        *sum = 0.0 + samples[i] + samples[i + 2] + samples[i + 4] + samples[i + 6];
    }
}

// A sum of four samples for each sample that it can start with. Refused where there are not 2,310 numbers, or no room for 2,304 sums.
#[tactic(auto, unfolding(crate::specs::Symbols::summed))]
pub fn running_sums(samples: &[f32], sums: &mut [f32]) -> Result<(), Refusal>
    ensures { (told_number result, sums.new) ≡ summed samples.now sums.old }
{
    if samples.len() != 2310 {
        return Err(Refusal::Input);
    }
    if sums.len() != 2304 {
        return Err(Refusal::Output);
    }
    sum_all(samples, sums);
    Ok(())
}

// Symbol n of phase k is the sum that starts with sample 4n+k.
fn set_out(sums: &[f32], symbols: &mut [f32])
    requires { (length sums.now ≡ 2304) × (length symbols.old ≡ 2304) }
    ensures { symbols.new ≡ symbols_in sums.now }
{
    // By index: the four sums of a symbol go to four rows.
    for n in 0..288 {
        for k in 0..4 {
            let from = 2 * (4 * n + k);
            let to = 576 * k + 2 * n;
            symbols[to] = sums[from];
            symbols[to + 1] = sums[from + 1];
        }
    }
}

// The symbols that the sums are: four rows of 576 numbers, one for each phase. Refused where either has not 2,304 numbers.
#[tactic(auto, unfolding(crate::specs::Symbols::set_out))]
pub fn symbols_of_sums(sums: &[f32], symbols: &mut [f32]) -> Result<(), Refusal>
    ensures { (told_number result, symbols.new) ≡ set_out sums.now symbols.old }
{
    if sums.len() != 2304 {
        return Err(Refusal::Input);
    }
    if symbols.len() != 2304 {
        return Err(Refusal::Output);
    }
    set_out(sums, symbols);
    Ok(())
}

// The symbols of a window.
#[tactic(auto, unfolding(crate::specs::Symbols::accumulated, crate::specs::Symbols::summed, crate::specs::Symbols::set_out), using(crate::proofs::Summing::symbols_in_law))]
pub fn accumulate_symbols(samples: &[f32], symbols: &mut [f32]) -> Result<(), Refusal>
    ensures { (told_number result, symbols.new) ≡ accumulated samples.now symbols.old }
{
    if samples.len() != 2310 {
        return Err(Refusal::Input);
    }
    if symbols.len() != 2304 {
        return Err(Refusal::Output);
    }
    let mut sums = [0.0f32; 2304];
    sum_all(samples, &mut sums);
    set_out(&sums, symbols);
    Ok(())
}
