// The powers of a message at its place's neighbours, in one pass over its bits: no sum waits for another.
ghost use Rattle.std.specs.Prelude.{◌≡◌};
ghost use Rattle.refusals.specs.Refusals.{told};
ghost use Rattle.powers.specs.Around.{around_at};

use crate::norms::{bit_of, pulse_norm};
use annex10::is_message;
use refusals::Refusal;

// Two steps earlier, one, one later, two.
#[derive(Clone, Copy, Debug, PartialEq)]
pub struct Around {
    pub earliest: f32,
    pub earlier: f32,
    pub later: f32,
    pub latest: f32,
}

// Of a message of 7 or 14 bytes, from the 16 symbols of each byte at each neighbour. Refused where a length is another.
#[tactic(auto, unfolding(crate::specs::Around::around_at, crate::specs::Powers::power_of), using(crate::proofs::Measuring::summing))]
pub fn powers_around(
    earliest: &[f32],
    earlier: &[f32],
    later: &[f32],
    latest: &[f32],
    message: &[u8],
) -> Result<Around, Refusal>
    ensures { told result ≡ around_at earliest.now earlier.now later.now latest.now message.now }
{
    let n = message.len();
    if !is_message(n)
        || earliest.len() != 32 * n
        || earlier.len() != 32 * n
        || later.len() != 32 * n
        || latest.len() != 32 * n
    {
        return Err(Refusal::Input);
    }
    let mut powers = Around {
        earliest: 0.0,
        earlier: 0.0,
        later: 0.0,
        latest: 0.0,
    };
    for (k, byte) in message.iter().enumerate() {
        for m in 0..8 {
            let j = 8 * k + m;
            let bit = bit_of(*byte, m);
            powers.earliest += pulse_norm(earliest, j, bit);
            powers.earlier += pulse_norm(earlier, j, bit);
            powers.later += pulse_norm(later, j, bit);
            powers.latest += pulse_norm(latest, j, bit);
        }
    }
    Ok(powers)
}
