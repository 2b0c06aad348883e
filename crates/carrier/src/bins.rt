// Walks over the bins of a spectrum.
ghost use Rattle.std.specs.Prelude.{◌≡◌, ◌+◌, ◌-◌, ◌/◌, ◌<◌, ◌≤◌, length, fold};
ghost use Rattle.std.specs.Float.{binary32};
ghost use Rattle.std.specs.Float.Ieee.{add};
ghost use Rattle.carrier.specs.Peaks.{peak_from, peak_of};
ghost use Rattle.carrier.specs.Floors.{floor_of};

use crate::search::Best;

// The first greatest above 0.0 of the bins from `start` to before `end`.
#[tactic(auto, unfolding(crate::specs::Peaks::peak_from))]
fn first_greatest(spectrum: &[f32], start: usize, end: usize) -> Best
    requires { (start ≤ end) × (end ≤ length spectrum.now) }
    ensures { result ≡ peak_from spectrum.now start (end - start) }
{
    let mut best = Best {
        bin: start,
        value: 0.0,
    };
    for (j, &value) in spectrum[start..end].iter().enumerate() {
        if value > best.value {
            best = Best {
                bin: start + j,
                value,
            };
        }
    }
    best
}

// The strongest bin of those within the half-width `search` of the middle.
#[tactic(auto, using(crate::proofs::Walking::strongest_is))]
pub fn strongest(spectrum: &[f32], search: usize) -> Best
    requires { (search + 2 ≤ length spectrum.now / 2) × (length spectrum.now ≤ 4096) }
    ensures { result ≡ peak_of spectrum.now search }
{
    let middle = spectrum.len() / 2;
    first_greatest(spectrum, middle - search, middle + search + 1)
}

// Adds the bins to a power, in order.
fn add_bins(power: f32, bins: &[f32]) -> f32
    ensures { result ≡ fold (add binary32) power bins.now }
{
    bins.iter().fold(power, |sum, &bin| sum + bin)
}

// The power of the bins outside the notch.
#[tactic(auto, using(crate::proofs::Walking::floor_is))]
pub fn notched_power(spectrum: &[f32], bin: usize, notch: usize) -> f32
    requires { (bin < length spectrum.now) × (notch < length spectrum.now) × (length spectrum.now ≤ 4096) }
    ensures { result ≡ floor_of spectrum.now bin notch }
{
    let start = bin.saturating_sub(notch);
    let end = (bin + notch + 1).min(spectrum.len());
    add_bins(add_bins(0.0, &spectrum[..start]), &spectrum[end..])
}
