// The bits of a message that were undecided.
ghost use Rattle.std.specs.Prelude.{◌≡◌, ◌*◌, length};
ghost use Rattle.slicing.specs.Undecided.{undecided_in};
ghost use Rattle.place.specs.Agrees.{location_number};
ghost use Rattle.parts.specs.Part.{symbols_at};
ghost use Rattle.receiver.specs.Inner.{kind_of, counted_in};

use crate::kinds::symbols_part;
use crate::phase::row_of;
use annex10::MessageKind;
use place::location::Location;
use search::Candidate;
use slicing::undecided::count_undecided;

// Of the bits that the slicer read there: what is repaired afterwards plays no part.
fn undecided_at(kind: MessageKind, row: &[f32], location: Location) -> u32
    requires { (length row.now ≡ 576) × (location_number (kind_of kind).bytes location ≡ 0) }
    ensures { result ≡ undecided_in location.slicer (symbols_at (kind_of kind).bytes row.now location.place) (8 * (kind_of kind).bytes) }
{
    count_undecided(symbols_part(kind, row, location), location.slicer).unwrap_or(0)
}

// What is read, with its count.
pub fn counted(kind: MessageKind, symbols: &[f32], read: Candidate) -> Candidate
    requires { (length symbols.now ≡ 2304) × (location_number (kind_of kind).bytes read.location ≡ 0) }
    ensures { result ≡ counted_in (kind_of kind) symbols.now read }
{
    let row = row_of(symbols, read.location.place.phase);
    let undecided = undecided_at(kind, row, read.location);
    Candidate { undecided, ..read }
}
