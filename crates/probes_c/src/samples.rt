// From samples to symbols, streams, undecided bits and powers.
ghost use Rattle.std.specs.Prelude.{◌≡◌};
ghost use Rattle.kernels.specs.Symbols.{accumulated};
ghost use Rattle.slicing.specs.Slices.{demodulated};
ghost use Rattle.slicing.specs.Undecided.{undecided_of};
ghost use Rattle.powers.specs.Powers.{power_at, noise_power_at};
ghost use Rattle.cn0.specs.Estimate.{cn0_of};
ghost use Rattle.math.specs.Parabola.{parabola};
ghost use Rattle.probes.specs.Flat.{flat_power, flat_number, slicer_by};

use probes::bits::FlatNumber;
use probes::samples::FlatPower;

#[unsafe(no_mangle)]
pub extern "C" fn probe_symbols(samples: &[f32], symbols: &mut [f32]) -> u32
    ensures { (result, symbols.new) ≡ accumulated samples.now symbols.old }
{
    probes::samples::probe_symbols(samples, symbols)
}

#[unsafe(no_mangle)]
pub extern "C" fn probe_streams(
    row: &[f32],
    coherent: &mut [u8],
    noncoherent: &mut [u8],
    coherent_marks: &mut [u8],
    noncoherent_marks: &mut [u8],
) -> u32
    ensures { (result, coherent.new, noncoherent.new, coherent_marks.new, noncoherent_marks.new) ≡ demodulated row.now (coherent.old, noncoherent.old, coherent_marks.old, noncoherent_marks.old) }
{
    probes::samples::probe_streams(
        row,
        coherent,
        noncoherent,
        coherent_marks,
        noncoherent_marks,
    )
}

#[unsafe(no_mangle)]
pub extern "C" fn probe_undecided(symbols: &[f32], noncoherent: bool) -> FlatNumber
    ensures { result ≡ flat_number (undecided_of symbols.now (slicer_by noncoherent)) }
{
    probes::samples::probe_undecided(symbols, noncoherent)
}

#[unsafe(no_mangle)]
pub extern "C" fn probe_power(symbols: &[f32], message: &[u8]) -> FlatPower
    ensures { result ≡ flat_power (power_at symbols.now message.now) }
{
    probes::samples::probe_power(symbols, message)
}

#[unsafe(no_mangle)]
pub extern "C" fn probe_noise_power(samples: &[f32], message: &[u8]) -> FlatPower
    ensures { result ≡ flat_power (noise_power_at samples.now message.now) }
{
    probes::samples::probe_noise_power(samples, message)
}

#[unsafe(no_mangle)]
pub extern "C" fn probe_cn0(prompt: f32, noise: f32) -> f32
    ensures { result ≡ cn0_of «prompt» «noise» }
{
    probes::samples::probe_cn0(prompt, noise)
}

#[unsafe(no_mangle)]
pub extern "C" fn probe_parabola(early: f32, prompt: f32, late: f32) -> f32
    ensures { result ≡ parabola early prompt late }
{
    probes::samples::probe_parabola(early, prompt, late)
}
