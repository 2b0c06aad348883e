// What a slicer compares, and what it says of two symbols.
ghost use Rattle.std.specs.Prelude.{◌≡◌, not, ◌&&◌, ◌+◌, ◌*◌, ◌<◌, length};
ghost use Rattle.std.specs.Float.Ieee.{lt};
ghost use Rattle.lists.specs.Bits.{as_bit};
ghost use Rattle.kernels.specs.Symbols.{complex_at};
ghost use Rattle.slicing.specs.Slices.{measure};

use math::Complex;
use place::Slicer;

// Real part or norm.
fn measure(slicer: Slicer, z: Complex) -> f32
    ensures { result ≡ measure slicer z }
{
    match slicer {
        Slicer::Coherent => z.re,
        Slicer::Noncoherent => z.norm(),
    }
}

// Of complex number i of a row, which holds re then im.
#[tactic(auto, unfolding(kernels::specs::Symbols::complex_at))]
pub fn measure_at(slicer: Slicer, row: &[f32], i: usize) -> f32
    requires { 2 * i + 1 < length row.now }
    ensures { result ≡ measure slicer (complex_at row.now i) }
{
    measure(
        slicer,
        Complex {
            re: row[2 * i],
            im: row[2 * i + 1],
        },
    )
}

// The bit of two measures: the first is strictly greater.
pub fn bit_of_pair(a: f32, b: f32) -> u8
    ensures { result ≡ as_bit (lt b a) }
{
    u8::from(a > b)
}

// Its mark: neither is. A NaN is neither greater nor equal.
pub fn mark_of_pair(a: f32, b: f32) -> u8
    ensures { result ≡ as_bit (not (lt b a) && not (lt a b)) }
{
    u8::from(!(a > b) && !(b > a))
}
