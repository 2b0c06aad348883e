// What clears a remainder, as a number: a position has a byte, so two fit in one.
ghost use Rattle.std.specs.Prelude.{◌≡◌};
ghost use Rattle.annex10.specs.Codes.{code_of};

use crate::{Found, Repairs};

// The first position, then the second, with 255 for one that is not there; 65536 where nothing clears it.
pub fn code_of(found: Found) -> u32
    ensures { result ≡ code_of found }
{
    match found {
        Found::At(Repairs::None) => 0xffff,
        Found::At(Repairs::One(j)) => j as u32 * 256 + 255,
        Found::At(Repairs::Two(j, k)) => j as u32 * 256 + k as u32,
        Found::Nothing => 0x10000,
    }
}
