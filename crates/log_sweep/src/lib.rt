// The logarithm for a Rust or C program to call, which sweeps it over the floats.
#![tactic(auto)]

ghost use Rattle.std.specs.Prelude.{◌≡◌};
ghost use Rattle.cn0.specs.Logarithm.{ten_log10};

pub fn log_sweep_ten_log10(x: f32) -> f32
    ensures { result ≡ ten_log10 x }
{
    cn0::ten_log10(x)
}
