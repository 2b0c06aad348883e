// The lookups of one and of two wrong bits, and of at most two for many remainders.
ghost use Rattle.std.specs.Prelude.{◌≡◌};
ghost use Rattle.annex10.specs.Repair.{clearing};
ghost use Rattle.repairs.specs.Codes.{codes_up_to_into};
ghost use Rattle.probes.specs.Flat.{flat_found};

use annex10::{Found, MessageKind, Repairs};
use refusals::number_of;
use repairs::rows::bit_errors_from_crc24s;
use repairs::{double_bit_error_from_crc24, single_bit_error_from_crc24};

// Zeros where nothing is found.
#[repr(C)]
#[derive(Clone, Copy, Debug, PartialEq, Eq)]
pub struct FlatFound {
    pub found: u32,
    pub count: u32,
    pub first: u32,
    pub second: u32,
}

impl From<Found> for FlatFound {
    ghost from_gives = { λ found flat. flat ≡ flat_found found };

    fn from(found: Found) -> FlatFound {
        let (found, count, first, second) = match found {
            Found::At(Repairs::None) => (1, 0, 0, 0),
            Found::At(Repairs::One(j)) => (1, 1, j, 0),
            Found::At(Repairs::Two(j, k)) => (1, 2, j, k),
            Found::Nothing => (0, 0, 0, 0),
        };
        FlatFound {
            found,
            count,
            first: u32::from(first),
            second: u32::from(second),
        }
    }
}

pub fn probe_single(crc: u32) -> FlatFound
    ensures { result ≡ flat_found (clearing 14 1 crc) }
{
    single_bit_error_from_crc24(crc).into()
}

pub fn probe_double(crc: u32) -> FlatFound
    ensures { result ≡ flat_found (clearing 14 2 crc) }
{
    double_bit_error_from_crc24(crc).into()
}

pub fn probe_codes(crcs: &[u32], codes: &mut [u32]) -> u32
    ensures { (result, codes.new) ≡ codes_up_to_into 14 2 2 crcs.now codes.old }
{
    number_of(bit_errors_from_crc24s(MessageKind::Long, 2, crcs, codes))
}
