// The carrier calls: each answers a flat struct, with zeros where the answer has no value.
ghost use Rattle.std.specs.Prelude.{◌≡◌};
ghost use Rattle.carrier.specs.Peaks.{search_of};
ghost use Rattle.carrier.specs.Floors.{floor_at};
ghost use Rattle.carrier.specs.Carriers.{carrier_of};
ghost use Rattle.carrier.specs.Maxima.{maximum_of};
ghost use Rattle.khlongrae.specs.Carriers.{flat_search, flat_floor, flat_carrier, flat_maximum};

use carrier::metric::Carrier;
use carrier::search::Best;

#[repr(C)]
#[derive(Clone, Copy, Debug, PartialEq)]
pub struct FlatSearch {
    pub number: u32,
    pub bin: usize,
    pub value: f32,
}

#[repr(C)]
#[derive(Clone, Copy, Debug, PartialEq)]
pub struct FlatFloor {
    pub number: u32,
    pub floor: f32,
}

#[repr(C)]
#[derive(Clone, Copy, Debug, PartialEq)]
pub struct FlatCarrier {
    pub number: u32,
    pub peak: u32,
    pub bin: usize,
    pub fraction: f32,
    pub value: f32,
    pub floor: f32,
}

#[repr(C)]
#[derive(Clone, Copy, Debug, PartialEq, Eq)]
pub struct FlatMaximum {
    pub number: u32,
    pub yes: u32,
}

pub fn khlongrae_long_fft_max_search(spectrum: &[f32], search: usize) -> FlatSearch
    ensures { result ≡ flat_search (search_of spectrum.now search) }
{
    match carrier::search::long_fft_max_search(spectrum, search) {
        Ok(Best { bin, value }) => FlatSearch {
            number: 0,
            bin,
            value,
        },
        Err(refusal) => FlatSearch {
            number: refusal.number(),
            bin: 0,
            value: 0.0,
        },
    }
}

pub fn khlongrae_carrier_notched_power(spectrum: &[f32], bin: usize, notch: usize) -> FlatFloor
    ensures { result ≡ flat_floor (floor_at spectrum.now bin notch) }
{
    match carrier::notch::carrier_notched_power(spectrum, bin, notch) {
        Ok(floor) => FlatFloor { number: 0, floor },
        Err(refusal) => FlatFloor {
            number: refusal.number(),
            floor: 0.0,
        },
    }
}

pub fn khlongrae_check_carrier_metric(
    spectrum: &[f32],
    search: usize,
    notch: usize,
    threshold: f32,
) -> FlatCarrier
    ensures { result ≡ flat_carrier (carrier_of spectrum.now search notch threshold) }
{
    match carrier::metric::check_carrier_metric(spectrum, search, notch, threshold) {
        Carrier::Peak {
            bin,
            fraction,
            value,
            floor,
        } => FlatCarrier {
            number: 0,
            peak: 1,
            bin,
            fraction,
            value,
            floor,
        },
        Carrier::Weak { value, floor } => FlatCarrier {
            number: 0,
            peak: 0,
            bin: 0,
            fraction: 0.0,
            value,
            floor,
        },
        Carrier::Refused(number) => FlatCarrier {
            number,
            peak: 0,
            bin: 0,
            fraction: 0.0,
            value: 0.0,
            floor: 0.0,
        },
    }
}

pub fn khlongrae_check_local_maximum(values: &[f32]) -> FlatMaximum
    ensures { result ≡ flat_maximum (maximum_of values.now) }
{
    match carrier::maximum::check_local_maximum(values) {
        Ok(yes) => FlatMaximum {
            number: 0,
            yes: u32::from(yes),
        },
        Err(refusal) => FlatMaximum {
            number: refusal.number(),
            yes: 0,
        },
    }
}
