// The whole numbers of an answer as one row.
ghost use Rattle.std.specs.Prelude.{◌≡◌};
ghost use Rattle.rows.specs.Rows.{first_of, second_of, slicer_code, row_of};

use annex10::{Repairs, repairs_of};
use place::Slicer;
use place::location::Location;

fn first_of(repairs: Repairs) -> u8
    ensures { result ≡ first_of repairs }
{
    match repairs {
        Repairs::None => 0,
        Repairs::One(j) | Repairs::Two(j, _) => j,
    }
}

fn second_of(repairs: Repairs) -> u8
    ensures { result ≡ second_of repairs }
{
    match repairs {
        Repairs::None | Repairs::One(_) => 0,
        Repairs::Two(_, k) => k,
    }
}

fn code_of(slicer: Slicer) -> u64
    ensures { result ≡ slicer_code slicer }
{
    match slicer {
        Slicer::Coherent => 0,
        Slicer::Noncoherent => 1,
    }
}

// Index, bit offset, clock phase, symbol offset, how many repairs, the two positions, the slicer, how many bits were undecided, the trial.
pub fn words_of(index: u64, location: Location, undecided: u32) -> [u64; 10]
    ensures { result ≡ row_of index location undecided }
{
    let place = location.place;
    [
        index,
        place.bit as u64,
        place.phase as u64,
        place.symbol as u64,
        u64::from(repairs_of(location.repairs)),
        u64::from(first_of(location.repairs)),
        u64::from(second_of(location.repairs)),
        code_of(location.slicer),
        u64::from(undecided),
        u64::from(location.trial),
    ]
}
