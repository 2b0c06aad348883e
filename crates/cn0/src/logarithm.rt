// The logarithm to base 2 in steps of 1 / 65536, of what is finite and above 0.
ghost use Rattle.std.specs.Prelude.{◌≡◌, ◌<◌, ◌≤◌, ◌^◌, T};
ghost use Rattle.std.specs.Float.{binary32};
ghost use Rattle.std.specs.Float.Ieee.{in_float};
ghost use Rattle.std.specs.Float.Ieee.Positive.{positive};
ghost use Rattle.cn0.specs.Logarithm.{digits, log_steps};
ghost use Rattle.cn0.specs.Inner.{Placed};

// Where the leading digit stands, counted from 1 at 2^-149, and the digits as a number in [2^31, 2^32).
#[derive(Clone, Copy, Debug, PartialEq, Eq)]
pub struct Parts {
    pub place: u32,
    pub significand: u64,
}

// A subnormal has no leading digit of its own, and stands where the smallest normal numbers do.
pub fn take_apart(x: f32) -> Parts
    requires { T (positive x) }
    ensures { Placed x result.place result.significand }
{
    let bits = x.to_bits();
    let field = bits >> 23;
    let low = bits & 0x7f_ffff;
    let k = field.saturating_sub(1);
    let q = if field > 0 { low + 0x80_0000 } else { low };
    let z = q.leading_zeros();
    Parts {
        place: k + (32 - z),
        significand: u64::from(q) << z,
    }
}

pub fn log_digits(significand: u64) -> u32
    requires { (2 ^ 31 ≤ significand) × (significand < 2 ^ 32) }
    ensures { (result ≡ digits 16 0 significand) × (result < 2 ^ 16) }
{
    let mut r = significand;
    let mut d = 0;
    for _ in 0u32..16 {
        let t = r * r;
        if t >= 0x8000_0000_0000_0000 {
            d = 2 * d + 1;
            r = t >> 32;
        } else {
            d = 2 * d;
            r = t >> 31;
        }
    }
    d
}

// The place is 150 more than the floor of the logarithm: 9830400 is 65536 * 150.
pub fn log_steps(x: f32) -> i32
    requires { T (positive x) }
    ensures { (result ≡ log_steps x) × T (in_float binary32 result) }
{
    let Parts { place, significand } = take_apart(x);
    (65536 * place + log_digits(significand)) as i32 - 9830400
}
