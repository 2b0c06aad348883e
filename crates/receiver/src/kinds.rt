// The calls that take the kind of a message, in the words of the search.
#![tactic(auto, unfolding(search::specs::Kinds::long, search::specs::Kinds::short))]

ghost use Rattle.std.specs.Prelude.{◌≡◌, ◌*◌, min};
ghost use Rattle.refusals.specs.Refusals.{told, told_number};
ghost use Rattle.mode_s.specs.Header.{header_of};
ghost use Rattle.place.specs.All.{listed, listed_at};
ghost use Rattle.place.specs.Agrees.{location_number, earlier_location, later_location};
ghost use Rattle.parts.specs.Part.{symbols_for, samples_for};
ghost use Rattle.repairs.specs.Codes.{codes_up_to_into};
ghost use Rattle.scan.specs.Exact.{exact_into, lead_of};
ghost use Rattle.sieve.specs.Repairable.{repairable_into};
ghost use Rattle.receiver.specs.Inner.{kind_of};

use crate::lent::{Hash, Scan};
use annex10::{MessageKind, Repairs};
use mode_s::header::header_is_valid;
use parts::{samples_for_location, symbols_for_location};
use place::Place;
use place::location::Location;
use refusals::Refusal;
use repairs::rows::bit_errors_from_crc24s;
use scan::list::list_exact;
use sieve::find_repairable;

// The bytes of a message.
pub fn bytes_of(kind: MessageKind) -> usize
    ensures { result ≡ (kind_of kind).bytes }
{
    kind.bytes()
}

// The most repairs: what the level asks for, and no more than the kind allows.
pub fn level_of(kind: MessageKind, level: u32) -> u32
    ensures { result ≡ min level (kind_of kind).most }
{
    level.min(kind.most())
}

pub fn is_listed(kind: MessageKind, place: Place) -> bool
    ensures { result ≡ listed (kind_of kind).last place }
{
    place.is_listed(kind)
}

pub fn numbered(kind: MessageKind, k: usize) -> Result<Place, Refusal>
    ensures { told result ≡ listed_at (kind_of kind).last k }
{
    Place::at(kind, k)
}

pub fn check_location(kind: MessageKind, location: Location) -> Result<(), Refusal>
    ensures { told_number result ≡ location_number (kind_of kind).bytes location }
{
    location.check(kind)
}

pub fn step_back(kind: MessageKind, location: Location) -> Result<Location, Refusal>
    ensures { told result ≡ earlier_location (kind_of kind).bytes location }
{
    location.earlier(kind)
}

pub fn step_on(kind: MessageKind, location: Location) -> Result<Location, Refusal>
    ensures { told result ≡ later_location (kind_of kind).bytes location }
{
    location.later(kind)
}

pub fn symbols_part(kind: MessageKind, row: &[f32], location: Location) -> &[f32]
    ensures { result.now ≡ symbols_for (kind_of kind).bytes row.now location }
{
    symbols_for_location(kind, row, location)
}

pub fn samples_part(kind: MessageKind, samples: &[f32], location: Location) -> &[f32]
    ensures { result.now ≡ samples_for (kind_of kind).bytes samples.now location }
{
    samples_for_location(kind, samples, location)
}

// The header of a message by its first byte, repaired.
pub fn header_of(kind: MessageKind, first: u8, repairs: Repairs) -> Result<bool, Refusal>
    ensures { told result ≡ header_of (kind_of kind).bytes (kind_of kind).header first repairs }
{
    header_is_valid(kind, first, repairs)
}

// The places at which a slicer has a remainder of 0.
pub fn exact_places(scan: &Scan, list: &mut [u16]) -> Result<usize, Refusal>
    ensures { (told result, list.new) ≡ exact_into (lead_of scan.now.kind) (8 * (kind_of scan.now.kind).last) scan.now.coherent.now scan.now.noncoherent.now scan.now.crcs.now scan.now.others.now list.old }
{
    list_exact(
        scan.kind,
        scan.coherent,
        scan.noncoherent,
        scan.crcs,
        scan.others,
        list,
    )
}

// The places that repairs can clear, and what clears them. A hash may be lent.
pub fn repairable_places(
    scan: &Scan,
    hash: Hash,
    level: u32,
    list: &mut [u16],
    codes: &mut [u32],
) -> Result<usize, Refusal>
    ensures { (told result, list.new, codes.new) ≡ repairable_into (kind_of scan.now.kind).bytes (kind_of scan.now.kind).most (8 * (kind_of scan.now.kind).last) level scan.now.crcs.now scan.now.others.now list.old codes.old }
{
    find_repairable(
        scan.kind,
        level,
        hash.displacements,
        hash.owners,
        scan.crcs,
        scan.others,
        list,
        codes,
    )
}

// What clears each of some remainders, as codes.
pub fn bit_errors(
    kind: MessageKind,
    level: u32,
    crcs: &[u32],
    codes: &mut [u32],
) -> Result<(), Refusal>
    ensures { (told_number result, codes.new) ≡ codes_up_to_into (kind_of kind).bytes (kind_of kind).most level crcs.now codes.old }
{
    bit_errors_from_crc24s(kind, level, crcs, codes)
}
