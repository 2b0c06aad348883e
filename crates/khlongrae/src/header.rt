// The header check of a first byte with its repairs.
ghost use Rattle.std.specs.Prelude.{◌≡◌, cond, ltb};
ghost use Rattle.lists.specs.Told.{tell};
ghost use Rattle.refusals.specs.Refusals.{told};
ghost use Rattle.search.specs.Kinds.{long, short};
ghost use Rattle.khlongrae.specs.Headers.{flat_header, header_check};
ghost use Rattle.khlongrae.specs.Inner.{narrow_repairs};

use annex10::{MessageKind, Repairs};
use mode_s::header::header_is_valid;
use refusals::Refusal;

#[repr(C)]
#[derive(Clone, Copy, Debug, PartialEq, Eq)]
pub struct FlatHeader {
    pub number: u32,
    pub valid: u32,
}

impl From<Result<bool, Refusal>> for FlatHeader {
    ghost from_gives = { λ checked flat. flat ≡ flat_header (told checked) };

    fn from(checked: Result<bool, Refusal>) -> FlatHeader {
        match checked {
            Ok(valid) => FlatHeader {
                number: 0,
                valid: u32::from(valid),
            },
            Err(refusal) => FlatHeader {
                number: refusal.number(),
                valid: 0,
            },
        }
    }
}

// No message has a position above 255.
fn position(j: u32) -> Result<u8, Refusal>
    ensures { told result ≡ tell (cond (ltb j 256) 0 8) j }
{
    u8::try_from(j).map_err(|_| Refusal::Position)
}

// What is not counted is not looked at.
#[tactic(auto, unfolding(crate::specs::Inner::narrow_repairs, mode_s::specs::Counted::counted_repairs))]
fn counted_repairs(count: u32, j: u32, k: u32) -> Result<Repairs, Refusal>
    ensures { told result ≡ narrow_repairs count j k }
{
    match count {
        0 => Ok(Repairs::None),
        1 => Ok(Repairs::One(position(j)?)),
        2 => Ok(Repairs::Two(position(j)?, position(k)?)),
        _ => Err(Refusal::Level),
    }
}

// Whether the first byte of a 14-byte message is that of an extended squitter once `count` positions are repaired: none, j, or j
// and k. Refused: 4 a count above 2, 8 a counted position above 111. The positions are wide, so that none is cut to a smaller one.
pub fn khlongrae_header(first: u8, count: u32, j: u32, k: u32) -> FlatHeader
    ensures { result ≡ flat_header (header_check long first count j k) }
{
    counted_repairs(count, j, k)
        .and_then(|repairs| header_is_valid(MessageKind::Long, first, repairs))
        .into()
}

// Whether that of a 7-byte message is that of an acquisition squitter. Refused: 4, and 8 a counted position above 55.
pub fn khlongrae_header_short(first: u8, count: u32, j: u32, k: u32) -> FlatHeader
    ensures { result ≡ flat_header (header_check short first count j k) }
{
    counted_repairs(count, j, k)
        .and_then(|repairs| header_is_valid(MessageKind::Short, first, repairs))
        .into()
}
