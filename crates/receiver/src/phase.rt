// The symbols of a clock phase, from those of all four.
ghost use Rattle.std.specs.Prelude.{◌≡◌, ◌*◌, ◌≤◌, length, take, drop};

pub fn row_of(symbols: &[f32], phase: usize) -> &[f32]
    requires { (length symbols.now ≡ 2304) × (phase ≤ 3) }
    ensures { result.now ≡ take 576 (drop (576 * phase) symbols.now) }
{
    let from = 576 * phase;
    &symbols[from..from + 576]
}
