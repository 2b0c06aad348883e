// From samples to symbols, streams, undecided bits and powers.
ghost use Rattle.std.specs.Prelude.{◌≡◌};
ghost use Rattle.refusals.specs.Refusals.{told};
ghost use Rattle.kernels.specs.Symbols.{accumulated};
ghost use Rattle.slicing.specs.Slices.{demodulated};
ghost use Rattle.slicing.specs.Undecided.{undecided_of};
ghost use Rattle.powers.specs.Powers.{power_at, noise_power_at};
ghost use Rattle.cn0.specs.Estimate.{cn0_of};
ghost use Rattle.math.specs.Parabola.{parabola};
ghost use Rattle.probes.specs.Flat.{flat_power, flat_number, slicer_by};

use crate::bits::FlatNumber;
use kernels::symbols::accumulate_symbols;
use place::Slicer;
use powers::power::{postdecode_noise_power, postdecode_power};
use refusals::{Refusal, number_of};
use slicing::slicers::demodulate;
use slicing::undecided::count_undecided;

#[repr(C)]
#[derive(Clone, Copy, Debug, PartialEq)]
pub struct FlatPower {
    pub number: u32,
    pub power: f32,
}

impl From<Result<f32, Refusal>> for FlatPower {
    ghost from_gives = { λ answer flat. flat ≡ flat_power (told answer) };

    fn from(answer: Result<f32, Refusal>) -> FlatPower {
        match answer {
            Ok(power) => FlatPower { number: 0, power },
            Err(refusal) => FlatPower {
                number: refusal.number(),
                power: 0.0,
            },
        }
    }
}

pub fn probe_symbols(samples: &[f32], symbols: &mut [f32]) -> u32
    ensures { (result, symbols.new) ≡ accumulated samples.now symbols.old }
{
    number_of(accumulate_symbols(samples, symbols))
}

pub fn probe_streams(
    row: &[f32],
    coherent: &mut [u8],
    noncoherent: &mut [u8],
    coherent_marks: &mut [u8],
    noncoherent_marks: &mut [u8],
) -> u32
    ensures { (result, coherent.new, noncoherent.new, coherent_marks.new, noncoherent_marks.new) ≡ demodulated row.now (coherent.old, noncoherent.old, coherent_marks.old, noncoherent_marks.old) }
{
    number_of(demodulate(
        row,
        coherent,
        noncoherent,
        coherent_marks,
        noncoherent_marks,
    ))
}

fn slicer_by(noncoherent: bool) -> Slicer
    ensures { result ≡ slicer_by noncoherent }
{
    if noncoherent {
        Slicer::Noncoherent
    } else {
        Slicer::Coherent
    }
}

// How many bits of a message were undecided. Refused: 2 a length that no message has.
pub fn probe_undecided(symbols: &[f32], noncoherent: bool) -> FlatNumber
    ensures { result ≡ flat_number (undecided_of symbols.now (slicer_by noncoherent)) }
{
    count_undecided(symbols, slicer_by(noncoherent)).into()
}

pub fn probe_power(symbols: &[f32], message: &[u8]) -> FlatPower
    ensures { result ≡ flat_power (power_at symbols.now message.now) }
{
    postdecode_power(symbols, message).into()
}

pub fn probe_noise_power(samples: &[f32], message: &[u8]) -> FlatPower
    ensures { result ≡ flat_power (noise_power_at samples.now message.now) }
{
    postdecode_noise_power(samples, message).into()
}

pub fn probe_cn0(prompt: f32, noise: f32) -> f32
    ensures { result ≡ cn0_of «prompt» «noise» }
{
    cn0::estimate_cn0(prompt, noise)
}

pub fn probe_parabola(early: f32, prompt: f32, late: f32) -> f32
    ensures { result ≡ parabola early prompt late }
{
    math::parabolic_interpolation(early, prompt, late)
}
