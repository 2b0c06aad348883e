// What clears a remainder, from its code.
ghost use Rattle.std.specs.Prelude.{◌≡◌};
ghost use Rattle.receiver.specs.Inner.{found_of, found_by};

use annex10::{Found, Repairs};

// What a code says.
fn bit_errors_of(code: u32) -> Found
    ensures { result ≡ found_of code }
{
    if code > 0xffff {
        return Found::Nothing;
    }
    let first = (code >> 8) as u8;
    let second = (code & 0xff) as u8;
    Found::At(match (first, second) {
        (255, _) => Repairs::None,
        (_, 255) => Repairs::One(first),
        _ => Repairs::Two(first, second),
    })
}

// A remainder of 0 needs no code.
#[tactic(auto, unfolding(crate::specs::Inner::found_by))]
pub fn bit_errors_by(crc: u32, code: u32) -> Found
    ensures { result ≡ found_by crc code }
{
    if crc == 0 {
        Found::At(Repairs::None)
    } else {
        bit_errors_of(code)
    }
}
