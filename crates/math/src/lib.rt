// Complex numbers of two floats, and the parabola over three values.
#![tactic(auto)]

ghost use Rattle.std.specs.Prelude.{◌≡◌};
ghost use Rattle.std.specs.Float.Ieee.Scale.{finite};
ghost use Rattle.math.specs.Complex.{plus_of, norm_of};
ghost use Rattle.math.specs.Parabola.{parabola};

#[derive(Clone, Copy, Debug, PartialEq)]
pub struct Complex {
    pub re: f32,
    pub im: f32,
}

impl Complex {
    pub const ZERO: Complex = Complex { re: 0.0, im: 0.0 };

    pub fn plus(self, other: Complex) -> Complex
        ensures { result ≡ plus_of self other }
    {
        Complex {
            re: self.re + other.re,
            im: self.im + other.im,
        }
    }

    pub fn norm(self) -> f32
        ensures { result ≡ norm_of self }
    {
        self.re * self.re + self.im * self.im
    }
}

// Where the parabola through three values is greatest, counted from the middle one.
#[tactic(auto, unfolding(crate::specs::Parabola::parabola))]
pub fn parabolic_interpolation(early: f32, prompt: f32, late: f32) -> f32
    ensures { result ≡ parabola early prompt late }
{
    let d = (late + early) - 2.0 * prompt;
    if d == 0.0 {
        0.0
    } else {
        (-0.5 * (late - early)) / d
    }
}

// Neither NaN nor infinite.
#[tactic(auto, using(crate::proofs::Finite::finite_is))]
pub fn is_finite(x: f32) -> bool
    ensures { result ≡ finite x }
{
    x.is_finite()
}
