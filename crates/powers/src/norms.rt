// The terms of the two powers of a message.
ghost use Rattle.std.specs.Prelude.{◌≡◌, ◌+◌, ◌-◌, ◌*◌, ◌/◌, ◌%◌, ◌^◌, ◌<◌, length};
ghost use Rattle.math.specs.Complex.{plus_of, norm_of};
ghost use Rattle.kernels.specs.Symbols.{complex_at};

use math::Complex;

// Complex number j of a row, which holds re then im.
#[tactic(auto, unfolding(kernels::specs::Symbols::complex_at))]
fn complex_at(row: &[f32], j: usize) -> Complex
    requires { 2 * j + 1 < length row.now }
    ensures { result ≡ complex_at row.now j }
{
    Complex {
        re: row[2 * j],
        im: row[2 * j + 1],
    }
}

// Bit m of a byte, the top bit first.
pub fn bit_of(byte: u8, m: usize) -> usize
    requires { m < 8 }
    ensures { (result ≡ byte / 2 ^ (7 - m) % 2) × (result < 2) }
{
    usize::from((byte >> (7 - m)) & 1)
}

// In the pulse of bit j.
pub fn pulse_norm(symbols: &[f32], j: usize, bit: usize) -> f32
    requires { (4 * j + 3 < length symbols.now) × (j < 112) × (bit < 2) }
    ensures { result ≡ norm_of (complex_at symbols.now (2 * j + (1 - bit))) }
{
    complex_at(symbols, 2 * j + (1 - bit)).norm()
}

// In the empty half of bit j: of its four samples the middle two.
pub fn empty_norm(samples: &[f32], j: usize, bit: usize) -> f32
    requires { (16 * j + 15 < length samples.now) × (j < 112) × (bit < 2) }
    ensures { result ≡ norm_of (plus_of (complex_at samples.now (8 * j + 4 * bit + 1)) (complex_at samples.now (8 * j + 4 * bit + 1 + 1))) }
{
    let middle = 8 * j + 4 * bit + 1;
    complex_at(samples, middle)
        .plus(complex_at(samples, middle + 1))
        .norm()
}
