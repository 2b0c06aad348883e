// What is read off a stream at a bit offset.
ghost use Rattle.std.specs.Prelude.{◌≡◌};
ghost use Rattle.refusals.specs.Refusals.{told};
ghost use Rattle.mode_s.specs.Counted.{counted_repairs};
ghost use Rattle.streams.specs.Remainders.{crc_at};
ghost use Rattle.streams.specs.Distances.{distance_at};
ghost use Rattle.probes.specs.Flat.{flat_number, flat_truth, counted_validity};

use annex10::{MessageKind, Repairs};
use refusals::Refusal;
use streams::crc::compute_crc;
use streams::distance::compute_hamming_distance;
use streams::header::df_is_valid_extended_squitter;

// A number 0 with the value, or a refusal's number with 0.
#[repr(C)]
#[derive(Clone, Copy, Debug, PartialEq, Eq)]
pub struct FlatNumber {
    pub number: u32,
    pub value: u32,
}

impl From<Result<u32, Refusal>> for FlatNumber {
    ghost from_gives = { λ answer flat. flat ≡ flat_number (told answer) };

    fn from(answer: Result<u32, Refusal>) -> FlatNumber {
        match answer {
            Ok(value) => FlatNumber { number: 0, value },
            Err(refusal) => FlatNumber {
                number: refusal.number(),
                value: 0,
            },
        }
    }
}

// 1 for yes.
impl From<Result<bool, Refusal>> for FlatNumber {
    ghost from_gives = { λ answer flat. flat ≡ flat_truth (told answer) };

    fn from(answer: Result<bool, Refusal>) -> FlatNumber {
        answer.map(u32::from).into()
    }
}

pub fn probe_remainder(bytes: &[u8], offset: usize) -> FlatNumber
    ensures { result ≡ flat_number (crc_at 14 bytes.now offset) }
{
    compute_crc(MessageKind::Long, bytes, offset).into()
}

pub fn probe_distance(a: &[u8], b: &[u8], offset: usize) -> FlatNumber
    ensures { result ≡ flat_number (distance_at a.now b.now offset) }
{
    compute_hamming_distance(a, b, offset).into()
}

// What is not counted is not looked at.
#[tactic(auto, unfolding(mode_s::specs::Counted::counted_repairs))]
fn counted_repairs(count: u32, j: u8, k: u8) -> Result<Repairs, Refusal>
    ensures { told result ≡ counted_repairs count j k }
{
    match count {
        0 => Ok(Repairs::None),
        1 => Ok(Repairs::One(j)),
        2 => Ok(Repairs::Two(j, k)),
        _ => Err(Refusal::Level),
    }
}

#[tactic(auto, unfolding(crate::specs::Flat::counted_validity))]
fn counted_validity(bytes: &[u8], offset: usize, count: u32, j: u8, k: u8) -> Result<bool, Refusal>
    ensures { told result ≡ counted_validity bytes.now offset count j k }
{
    if bytes.len() != 18 {
        return Err(Refusal::Input);
    }
    let repairs = counted_repairs(count, j, k)?;
    df_is_valid_extended_squitter(bytes, offset, repairs)
}

// No repair for count 0, position j for 1, both for 2. The value is 1 for a header that is taken. Refused: 2 a stream that has not
// 18 bytes, 4 a count above 2, 7 an offset above 32, 8 a counted position above 111.
pub fn probe_header(bytes: &[u8], offset: usize, count: u32, j: u8, k: u8) -> FlatNumber
    ensures { result ≡ flat_truth (counted_validity bytes.now offset count j k) }
{
    counted_validity(bytes, offset, count, j, k).into()
}
