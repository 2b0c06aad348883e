// Both powers of a message in one pass over its bits: neither sum waits for the other.
ghost use Rattle.std.specs.Prelude.{◌≡◌};
ghost use Rattle.refusals.specs.Refusals.{told};
ghost use Rattle.powers.specs.Both.{powers_at};

use crate::norms::{bit_of, empty_norm, pulse_norm};
use annex10::is_message;
use refusals::Refusal;

#[derive(Clone, Copy, Debug, PartialEq)]
pub struct Powers {
    pub prompt: f32,
    pub noise: f32,
}

// Of a message of 7 or 14 bytes: prompt power from the 16 symbols of each byte, noise power from its 64 samples. Refused where a length
// is another.
#[tactic(auto, unfolding(crate::specs::Both::powers_at, crate::specs::Powers::power_of, crate::specs::Powers::noise_of), using(crate::proofs::Measuring::summing))]
pub fn postdecode_powers(
    symbols: &[f32],
    samples: &[f32],
    message: &[u8],
) -> Result<Powers, Refusal>
    ensures { told result ≡ powers_at symbols.now samples.now message.now }
{
    let n = message.len();
    if !is_message(n) || symbols.len() != 32 * n || samples.len() != 128 * n {
        return Err(Refusal::Input);
    }
    let mut prompt = 0.0;
    let mut noise = 0.0;
    for (k, byte) in message.iter().enumerate() {
        for m in 0..8 {
            let j = 8 * k + m;
            let bit = bit_of(*byte, m);
            prompt += pulse_norm(symbols, j, bit);
            noise += empty_norm(samples, j, bit);
        }
    }
    Ok(Powers { prompt, noise })
}
