// The moves one by one, as the Rust makes them.
ghost use Rattle.std.specs.Prelude.{◌≡◌, true, ◌≤◌, ◌<◌, ◌+◌, ◌^◌, pos, ◌+ℤ◌};
ghost use Rattle.timing.specs.Subsample.{after_moves, gained};
ghost use Rattle.timing.specs.Inner.{in_range};

#[derive(Clone, Copy, Debug, PartialEq)]
pub struct Turned {
    pub index: u64,
    pub fraction: f32,
}

pub fn settle_from(mut index: u64, mut fraction: f32) -> Turned
    requires { (4 ≤ index) × (index + 4 < 2 ^ 64) × (in_range fraction ≡ true) }
    ensures { (result.fraction ≡ after_moves fraction) × (pos result.index ≡ pos index +ℤ gained fraction) }
{
    loop {
        if fraction < -0.5 {
            index -= 1;
            fraction += 1.0;
        } else if fraction >= 0.5 {
            index += 1;
            fraction -= 1.0;
        } else {
            return Turned { index, fraction };
        }
    }
}
