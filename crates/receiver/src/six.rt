// The six trials at a place, where what clears the two messages is known.
ghost use Rattle.std.specs.Prelude.{◌≡◌, true, [], ◌∷◌};
ghost use Rattle.annex10.specs.Any.{only};
ghost use Rattle.search.specs.Trials.{first, six_trials};
ghost use Rattle.receiver.specs.Inner.{kind_of, found_inside};

use crate::trial::then_try;
use annex10::{Found, MessageKind};
use place::{Place, Slicer};
use search::Tried;

// The first of the six that passes. Of the two messages the first bytes are given; c and d are what clears them, apart whether their remainders
// differ.
pub fn try_six(
    kind: MessageKind,
    level: u32,
    coherent: u8,
    noncoherent: u8,
    place: Place,
    c: Found,
    d: Found,
    apart: bool,
) -> Tried
    requires { (found_inside (kind_of kind) c ≡ true) × (found_inside (kind_of kind) d ≡ true) }
    ensures { result ≡ first (six_trials (kind_of kind) level place (coherent ∷ []) (noncoherent ∷ []) (only c) (only d) apart) }
{
    let three = level >= 1;
    let four = three && apart;
    let five = level >= 2;
    let six = five && apart;
    let t = then_try(
        kind,
        Tried::Fail,
        true,
        1,
        Slicer::Coherent,
        coherent,
        place,
        c,
        0,
    );
    let t = then_try(
        kind,
        t,
        true,
        2,
        Slicer::Noncoherent,
        noncoherent,
        place,
        d,
        0,
    );
    let t = then_try(kind, t, three, 3, Slicer::Coherent, coherent, place, c, 1);
    let t = then_try(
        kind,
        t,
        four,
        4,
        Slicer::Noncoherent,
        noncoherent,
        place,
        d,
        1,
    );
    let t = then_try(kind, t, five, 5, Slicer::Coherent, coherent, place, c, 2);
    then_try(
        kind,
        t,
        six,
        6,
        Slicer::Noncoherent,
        noncoherent,
        place,
        d,
        2,
    )
}
