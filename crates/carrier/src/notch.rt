// The power of a spectrum beside a bin.
ghost use Rattle.std.specs.Prelude.{◌≡◌};
ghost use Rattle.refusals.specs.Refusals.{told};
ghost use Rattle.carrier.specs.Floors.{floor_at};

use crate::bins::notched_power;
use crate::refusal::check_floor;
use refusals::Refusal;

#[tactic(auto, using(crate::proofs::Taken::floor_taken), unfolding(crate::specs::Floors::floor_at))]
pub fn carrier_notched_power(spectrum: &[f32], bin: usize, notch: usize) -> Result<f32, Refusal>
    ensures { told result ≡ floor_at spectrum.now bin notch }
{
    check_floor(spectrum.len(), bin, notch)?;
    Ok(notched_power(spectrum, bin, notch))
}
