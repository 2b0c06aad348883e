// The static library of the logarithm: that of `log_sweep` under its own name, with its clause.
#![tactic(auto)]

ghost use Rattle.std.specs.Prelude.{◌≡◌};
ghost use Rattle.cn0.specs.Logarithm.{ten_log10};

#[unsafe(no_mangle)]
pub extern "C" fn log_sweep_ten_log10(x: f32) -> f32
    ensures { result ≡ ten_log10 x }
{
    log_sweep::log_sweep_ten_log10(x)
}
