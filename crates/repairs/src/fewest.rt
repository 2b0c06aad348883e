// The fewest positions of 14 bytes that clear a remainder, by the sorted tables.
ghost use Rattle.std.specs.Prelude.{◌≡◌, ◌≤◌};
ghost use Rattle.annex10.specs.Any.{clearing_up_to};

use crate::{double_bit_error_from_crc24, single_bit_error_from_crc24};
use annex10::{Found, Repairs};

// None for 0; else one; else two: at most `level`. No remainder has more than 24 bits, and more are not looked for.
pub fn fewest(level: u32, crc: u32) -> Found
    requires { level ≤ 2 }
    ensures { result ≡ clearing_up_to 14 level crc }
{
    if crc == 0 {
        return Found::At(Repairs::None);
    }
    if level == 0 || crc >= 0x1000000 {
        return Found::Nothing;
    }
    match single_bit_error_from_crc24(crc) {
        Found::Nothing if level == 2 => double_bit_error_from_crc24(crc),
        one => one,
    }
}
