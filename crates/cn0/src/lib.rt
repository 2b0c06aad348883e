// Carrier to noise density.
#![tactic(auto)]

mod logarithm;

ghost use Rattle.std.specs.Prelude.{◌≡◌};
ghost use Rattle.cn0.specs.Logarithm.{ten_log10};
ghost use Rattle.cn0.specs.Estimate.{cn0_of};

// 10 / (65536 * log2 10), rounded: 12626113 / 2^38.
const SCALE: f32 = f32::from_bits(0x3840_a8c1);

// In place of the Rust's `10.0 * x.log10()`. There is no logarithm of NaN and of what is below 0.
pub fn ten_log10(x: f32) -> f32
    ensures { result ≡ ten_log10 x }
{
    if x > 0.0 {
        if x == f32::INFINITY {
            x
        } else {
            logarithm::log_steps(x) as f32 * SCALE
        }
    } else if x == 0.0 {
        f32::NEG_INFINITY
    } else {
        f32::NAN
    }
}

// The noise is summed over half as many samples as the prompt, hence the doubling. 2,000,000 is the noise bandwidth.
pub fn estimate_cn0(prompt_power: f32, noise_power: f32) -> f32
    ensures { result ≡ cn0_of prompt_power noise_power }
{
    let noise = 2.0 * noise_power;
    let difference = prompt_power - noise;
    let signal = if difference >= 0.0 { difference } else { 0.0 };
    ten_log10((signal / noise) * 2000000.0)
}
