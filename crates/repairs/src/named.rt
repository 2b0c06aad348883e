// What clears a remainder, where positions are named that may do it. They are checked by dividing, so whoever names them need not be
// believed; only where they do not clear it, the sorted tables are asked.
ghost use Rattle.std.specs.Prelude.{◌≡◌, ◌≤◌, min};
ghost use Rattle.annex10.specs.declared.Repairs.TheVariants.{One, Two};
ghost use Rattle.annex10.specs.Length.{message_bytes, most_repairs};
ghost use Rattle.annex10.specs.Repair.{pattern};
ghost use Rattle.repairs.specs.Codes.{code_up_to};
ghost use Rattle.repairs.specs.Inner.{cleared_by};

use crate::codes::code_short;
use crate::fewest::fewest;
use annex10::codes::code_of;
use annex10::division::bring_byte;
use annex10::{Found, MessageKind, Repairs, repairs_of};

// The remainder of a message of 14 bytes in which this bit alone is set: its byte is divided, and zeros behind it. A position that is not
// there sets none.
pub fn pattern_of(position: u8) -> u32
    ensures { result ≡ pattern 14 (One position) }
{
    if position >= 112 {
        return 0;
    }
    let mut crc = bring_byte(0, 1 << (7 - position % 8));
    for _ in 0..13 - position / 8 {
        crc = bring_byte(crc, 0);
    }
    crc
}

// Whether the positions clear it: one, or two in their order.
#[tactic(auto, unfolding(crate::specs::Inner::cleared_by))]
fn clears(named: Repairs, crc: u32) -> bool
    ensures { result ≡ cleared_by named crc }
{
    match named {
        Repairs::None => false,
        Repairs::One(j) => j < 112 && pattern_of(j) == crc,
        Repairs::Two(j, k) => j < k && k < 112 && pattern_of(j) ^ pattern_of(k) == crc,
    }
}

// With at most `level`, by what is named.
fn code_named(level: u32, named: Repairs, crc: u32) -> u32
    requires { level ≤ 2 }
    ensures { result ≡ code_up_to 14 level crc }
{
    if repairs_of(named) <= level && clears(named, crc) {
        return code_of(Found::At(named));
    }
    code_of(fewest(level, crc))
}

// The code of the fewest positions of a message, at most `level` and no more than its kind allows, that clear a remainder, whatever is
// named. What is named is a position of 14 bytes.
#[tactic(auto, using(crate::proofs::Naming::short_named))]
pub fn bit_errors_named(kind: MessageKind, level: u32, named: Repairs, crc: u32) -> u32
    ensures { result ≡ code_up_to (message_bytes kind) (min level (most_repairs kind)) crc }
{
    let code = code_named(level.min(kind.most()), named, crc);
    match kind {
        MessageKind::Short => code_short(code),
        MessageKind::Long => code,
    }
}
