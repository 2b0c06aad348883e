// The carrier call: whether the strongest bin stands out, and where in it the carrier lies.
ghost use Rattle.std.specs.Prelude.{◌≡◌, ◌+◌, ◌/◌, ◌<◌, ◌≤◌, length};
ghost use Rattle.lists.specs.Told.{done};
ghost use Rattle.carrier.specs.Carriers.{carrier_told, bin_fraction, measured, carrier_of};

use crate::bins::{notched_power, strongest};
use crate::refusal::check_carrier;
use crate::search::Best;
use math::parabolic_interpolation;

// The rules give the refusal of this call as a number beside the other answers, and not as an error.
#[derive(Clone, Copy, Debug, PartialEq)]
pub enum Carrier {
    Peak {
        bin: usize,
        fraction: f32,
        value: f32,
        floor: f32,
    },
    Weak {
        value: f32,
        floor: f32,
    },
    Refused(u32),
}

// How far the carrier lies from the middle of a bin.
#[tactic(auto, unfolding(crate::specs::Carriers::bin_fraction, crate::specs::Peaks::bin_at))]
fn bin_fraction(spectrum: &[f32], bin: usize) -> f32
    requires { (0 < bin) × (bin + 1 < length spectrum.now) }
    ensures { result ≡ bin_fraction spectrum.now bin }
{
    parabolic_interpolation(spectrum[bin - 1], spectrum[bin], spectrum[bin + 1])
}

#[tactic(auto, using(crate::proofs::Walking::strongest_within), unfolding(crate::specs::Carriers::measured, crate::specs::Carriers::stands_out))]
fn measure(spectrum: &[f32], search: usize, notch: usize, threshold: f32) -> Carrier
    requires { (search + 2 ≤ length spectrum.now / 2) × (notch < length spectrum.now) × (length spectrum.now ≤ 4096) }
    ensures { carrier_told result ≡ done (measured spectrum.now search notch threshold) }
{
    let Best { bin, value } = strongest(spectrum, search);
    let floor = notched_power(spectrum, bin, notch);
    if value >= threshold * floor {
        Carrier::Peak {
            bin,
            fraction: bin_fraction(spectrum, bin),
            value,
            floor,
        }
    } else {
        Carrier::Weak { value, floor }
    }
}

#[tactic(auto, using(crate::proofs::Taken::carrier_taken), unfolding(crate::specs::Carriers::carrier_of))]
pub fn check_carrier_metric(
    spectrum: &[f32],
    search: usize,
    notch: usize,
    threshold: f32,
) -> Carrier
    ensures { carrier_told result ≡ carrier_of spectrum.now search notch threshold }
{
    match check_carrier(spectrum.len(), search, notch, threshold) {
        Ok(()) => measure(spectrum, search, notch, threshold),
        Err(refusal) => Carrier::Refused(refusal.number()),
    }
}
