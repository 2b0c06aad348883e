// What the calls over a spectrum of n bins refuse.
ghost use Rattle.std.specs.Prelude.{◌≡◌};
ghost use Rattle.refusals.specs.Refusals.{told_number};
ghost use Rattle.carrier.specs.Refusals.{bins_taken, threshold_taken, search_number, floor_number, carrier_number};

use refusals::Refusal;

// An even number of bins, 4 to 4,096.
#[tactic(auto, unfolding(crate::specs::Refusals::bins_taken))]
fn bins_taken(n: usize) -> bool
    ensures { result ≡ bins_taken n }
{
    (4..=4096).contains(&n) && n % 2 == 0
}

#[tactic(auto, using(crate::proofs::Taken::threshold_finite, crate::proofs::Taken::threshold_else))]
fn threshold_taken(threshold: f32) -> bool
    ensures { result ≡ threshold_taken threshold }
{
    threshold.is_finite() && threshold >= 0.0
}

#[tactic(auto, unfolding(crate::specs::Refusals::search_number, crate::specs::Refusals::bins_taken))]
pub fn check_search(n: usize, search: usize) -> Result<(), Refusal>
    ensures { told_number result ≡ search_number n search }
{
    if !bins_taken(n) {
        return Err(Refusal::Input);
    }
    if search > n / 2 - 2 {
        return Err(Refusal::HalfWidth);
    }
    Ok(())
}

#[tactic(auto, unfolding(crate::specs::Refusals::floor_number, crate::specs::Refusals::bins_taken))]
pub fn check_floor(n: usize, bin: usize, notch: usize) -> Result<(), Refusal>
    ensures { told_number result ≡ floor_number n bin notch }
{
    if !bins_taken(n) {
        return Err(Refusal::Input);
    }
    if bin >= n {
        return Err(Refusal::Place);
    }
    if notch >= n {
        return Err(Refusal::HalfWidth);
    }
    Ok(())
}

#[tactic(auto, unfolding(crate::specs::Refusals::carrier_number, crate::specs::Refusals::bins_taken))]
pub fn check_carrier(n: usize, search: usize, notch: usize, threshold: f32) -> Result<(), Refusal>
    ensures { told_number result ≡ carrier_number n search notch threshold }
{
    if !bins_taken(n) {
        return Err(Refusal::Input);
    }
    if !threshold_taken(threshold) {
        return Err(Refusal::Threshold);
    }
    if search > n / 2 - 2 || notch >= n {
        return Err(Refusal::HalfWidth);
    }
    Ok(())
}
