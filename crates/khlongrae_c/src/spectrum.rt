// The carrier calls: each answers a flat struct.
ghost use Rattle.std.specs.Prelude.{◌≡◌};
ghost use Rattle.carrier.specs.Peaks.{search_of};
ghost use Rattle.carrier.specs.Floors.{floor_at};
ghost use Rattle.carrier.specs.Carriers.{carrier_of};
ghost use Rattle.carrier.specs.Maxima.{maximum_of};
ghost use Rattle.khlongrae.specs.Carriers.{flat_search, flat_floor, flat_carrier, flat_maximum};

use khlongrae::spectrum::{FlatCarrier, FlatFloor, FlatMaximum, FlatSearch};

#[unsafe(no_mangle)]
pub extern "C" fn khlongrae_long_fft_max_search(spectrum: &[f32], search: usize) -> FlatSearch
    ensures { result ≡ flat_search (search_of spectrum.now search) }
{
    khlongrae::spectrum::khlongrae_long_fft_max_search(spectrum, search)
}

#[unsafe(no_mangle)]
pub extern "C" fn khlongrae_carrier_notched_power(
    spectrum: &[f32],
    bin: usize,
    notch: usize,
) -> FlatFloor
    ensures { result ≡ flat_floor (floor_at spectrum.now bin notch) }
{
    khlongrae::spectrum::khlongrae_carrier_notched_power(spectrum, bin, notch)
}

#[unsafe(no_mangle)]
pub extern "C" fn khlongrae_check_carrier_metric(
    spectrum: &[f32],
    search: usize,
    notch: usize,
    threshold: f32,
) -> FlatCarrier
    ensures { result ≡ flat_carrier (carrier_of spectrum.now search notch threshold) }
{
    khlongrae::spectrum::khlongrae_check_carrier_metric(spectrum, search, notch, threshold)
}

#[unsafe(no_mangle)]
pub extern "C" fn khlongrae_check_local_maximum(values: &[f32]) -> FlatMaximum
    ensures { result ≡ flat_maximum (maximum_of values.now) }
{
    khlongrae::spectrum::khlongrae_check_local_maximum(values)
}
