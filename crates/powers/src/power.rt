// The power of a message, and of the noise beside it.
ghost use Rattle.std.specs.Prelude.{◌≡◌};
ghost use Rattle.refusals.specs.Refusals.{told};
ghost use Rattle.powers.specs.Powers.{power_at, noise_power_at};

use crate::norms::{bit_of, empty_norm, pulse_norm};
use annex10::is_message;
use refusals::Refusal;

// Of a message of 7 or 14 bytes, from the 16 symbols of each byte. Refused where a length is another.
#[tactic(auto, unfolding(crate::specs::Powers::power_at, crate::specs::Powers::power_number, crate::specs::Powers::power_of), using(crate::proofs::Measuring::summing))]
pub fn postdecode_power(symbols: &[f32], message: &[u8]) -> Result<f32, Refusal>
    ensures { told result ≡ power_at symbols.now message.now }
{
    let n = message.len();
    if !is_message(n) || symbols.len() != 32 * n {
        return Err(Refusal::Input);
    }
    let mut power = 0.0;
    for (k, byte) in message.iter().enumerate() {
        for m in 0..8 {
            power += pulse_norm(symbols, 8 * k + m, bit_of(*byte, m));
        }
    }
    Ok(power)
}

// Of a message of 7 or 14 bytes, from the 64 samples of each byte. Refused where a length is another.
#[tactic(auto, unfolding(crate::specs::Powers::noise_power_at, crate::specs::Powers::power_number, crate::specs::Powers::noise_of), using(crate::proofs::Measuring::summing))]
pub fn postdecode_noise_power(samples: &[f32], message: &[u8]) -> Result<f32, Refusal>
    ensures { told result ≡ noise_power_at samples.now message.now }
{
    let n = message.len();
    if !is_message(n) || samples.len() != 128 * n {
        return Err(Refusal::Input);
    }
    let mut power = 0.0;
    for (k, byte) in message.iter().enumerate() {
        for m in 0..8 {
            power += empty_norm(samples, 8 * k + m, bit_of(*byte, m));
        }
    }
    Ok(power)
}
