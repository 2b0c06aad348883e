// One trial: the positions that are found, and the header of the message that they repair.
ghost use Rattle.std.specs.Prelude.{◌≡◌, true, [], ◌∷◌};
ghost use Rattle.annex10.specs.Any.{only};
ghost use Rattle.search.specs.Trials.{checked, given};
ghost use Rattle.receiver.specs.Inner.{kind_of, found_inside, or_try};

use crate::kinds::header_of;
use annex10::{Found, MessageKind, repairs_of};
use place::location::Location;
use place::{Place, Slicer};
use search::Tried;

// What is found, if it is n positions.
fn only(found: Found, n: u32) -> Found
    ensures { result ≡ only found n }
{
    match found {
        Found::At(repairs) if n == repairs_of(repairs) => found,
        _ => Found::Nothing,
    }
}

// The message at a place with n positions repaired, those that clear it being given: of the message only the first byte is looked at.
fn try_one(
    kind: MessageKind,
    number: u8,
    slicer: Slicer,
    first: u8,
    place: Place,
    found: Found,
    n: u32,
) -> Tried
    requires { found_inside (kind_of kind) found ≡ true }
    ensures { result ≡ checked (kind_of kind) place number slicer (first ∷ []) (only found n) }
{
    let Found::At(repairs) = only(found, n) else {
        return Tried::Fail;
    };
    // The positions lie in the message, so the check is not refused.
    if header_of(kind, first, repairs).unwrap_or(false) {
        Tried::Pass(Location {
            place,
            trial: number,
            slicer,
            repairs,
        })
    } else {
        Tried::Fail
    }
}

// One trial more, if none before it passed and it is to be made.
#[tactic(auto, unfolding(crate::specs::Inner::or_try, search::specs::Trials::given))]
pub fn then_try(
    kind: MessageKind,
    before: Tried,
    made: bool,
    number: u8,
    slicer: Slicer,
    first: u8,
    place: Place,
    found: Found,
    n: u32,
) -> Tried
    requires { found_inside (kind_of kind) found ≡ true }
    ensures { result ≡ or_try before (given made (checked (kind_of kind) place number slicer (first ∷ []) (only found n))) }
{
    match before {
        Tried::Fail if made => try_one(kind, number, slicer, first, place, found, n),
        _ => before,
    }
}
