// Subsample timing: the fraction of a sample, and the whole samples that move between it and the index.
#![tactic(auto)]

mod turns;

ghost use Rattle.std.specs.Prelude.{◌≡◌, true};
ghost use Rattle.timing.specs.Subsample.{offset_of, fraction_of, timing_of};
ghost use Rattle.timing.specs.Inner.{in_range};

use crate::turns::{Turned, settle_from};

// Which place is the prompt: the reading's own, or a neighbour with more power.
#[derive(Clone, Copy, Debug, PartialEq, Eq)]
pub enum Offset {
    Earlier,
    Same,
    Later,
}

// By how many samples the index moves. No move is `On(0)`.
#[derive(Clone, Copy, Debug, PartialEq, Eq)]
pub enum Moves {
    Back(u64),
    On(u64),
}

#[derive(Clone, Copy, Debug, PartialEq)]
pub struct Timing {
    pub moves: Moves,
    pub fraction: f32,
}

fn offset_of(offset: Offset) -> f32
    ensures { result ≡ offset_of offset }
{
    match offset {
        Offset::Earlier => -1.0,
        Offset::Same => 0.0,
        Offset::Later => 1.0,
    }
}

// The parabola's value is held to [-1, 1]; a NaN stays. The powers are equal when the edge lies halfway between two samples, hence the half.
fn fraction_of(parabola: f32, offset: Offset) -> f32
    ensures { result ≡ fraction_of parabola offset }
{
    (parabola.clamp(-1.0, 1.0) + offset_of(offset)) - 0.5
}

// The index starts at 4, so that it can go back.
fn rested(fraction: f32) -> Timing
    requires { in_range fraction ≡ true }
    ensures { result ≡ timing_of fraction }
{
    let Turned { index, fraction } = settle_from(4, fraction);
    let moves = if index < 4 {
        Moves::Back(4 - index)
    } else {
        Moves::On(index - 4)
    };
    Timing { moves, fraction }
}

// From the parabola's value about the prompt to the moves and the fraction that is left.
pub fn subsample_timing(parabola: f32, offset: Offset) -> Timing
    ensures { result ≡ timing_of (fraction_of parabola offset) }
{
    rested(fraction_of(parabola, offset))
}
