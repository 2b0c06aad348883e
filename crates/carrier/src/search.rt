// The strongest bin of a spectrum.
ghost use Rattle.std.specs.Prelude.{◌≡◌};
ghost use Rattle.refusals.specs.Refusals.{told};
ghost use Rattle.carrier.specs.Peaks.{search_of};

use crate::bins::strongest;
use crate::refusal::check_search;
use refusals::Refusal;

#[derive(Clone, Copy, Debug, PartialEq)]
pub struct Best {
    pub bin: usize,
    pub value: f32,
}

#[tactic(auto, using(crate::proofs::Taken::search_taken), unfolding(crate::specs::Peaks::search_of))]
pub fn long_fft_max_search(spectrum: &[f32], search: usize) -> Result<Best, Refusal>
    ensures { told result ≡ search_of spectrum.now search }
{
    check_search(spectrum.len(), search)?;
    Ok(strongest(spectrum, search))
}
