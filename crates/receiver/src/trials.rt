// The reading of a place, from its two streams: what clears the two messages is worked out here.
ghost use Rattle.std.specs.Prelude.{◌≡◌, ◌≤◌, length, get_or};
ghost use Rattle.annex10.specs.Remainder.{remainder};
ghost use Rattle.annex10.specs.Any.{clearing_any};
ghost use Rattle.streams.specs.Streams.{message_at};
ghost use Rattle.refusals.specs.Refusals.{told, told_number};
ghost use Rattle.receiver.specs.Tries.{try_number, tried_at};

use crate::six::try_six;
use annex10::{Found, MessageKind, Repairs};
use place::Place;
use refusals::Refusal;
use repairs::{double_bit_error_from_crc24, single_bit_error_from_crc24};
use search::Tried;
use streams::crc::compute_crc;
use streams::message::extract_message;

#[tactic(auto, unfolding(crate::specs::Tries::try_number))]
fn check_try(level: u32, coherent: &[u8], noncoherent: &[u8], place: Place) -> Result<(), Refusal>
    ensures { told_number result ≡ try_number level coherent.now noncoherent.now place }
{
    if coherent.len() != 18 || noncoherent.len() != 18 {
        Err(Refusal::Input)
    } else if level > 2 {
        Err(Refusal::Level)
    } else if !place.is_listed(MessageKind::Long) {
        Err(Refusal::Place)
    } else {
        Ok(())
    }
}

fn crc_at(stream: &[u8], bit: usize) -> u32
    requires { (length stream.now ≡ 18) × (bit ≤ 32) }
    ensures { result ≡ remainder (message_at stream.now 14 bit) }
{
    compute_crc(MessageKind::Long, stream, bit).unwrap_or(0)
}

fn first_at(stream: &[u8], bit: usize) -> u8
    requires { (length stream.now ≡ 18) × (bit ≤ 32) }
    ensures { result ≡ get_or (message_at stream.now 14 bit) 0 0 }
{
    extract_message(stream, bit).unwrap_or([0; 14])[0]
}

// What clears a remainder: no position, else one, else two.
fn bit_errors(crc: u32) -> Found
    ensures { result ≡ clearing_any 14 crc }
{
    if crc == 0 {
        return Found::At(Repairs::None);
    }
    match single_bit_error_from_crc24(crc) {
        Found::At(repairs) => Found::At(repairs),
        Found::Nothing => double_bit_error_from_crc24(crc),
    }
}

// The reading of one of the 248 places, from the two streams in which it lies. Refused: 2 a stream that has not 18 bytes, 4 a level above
// 2, 7 another place.
#[tactic(auto, unfolding(crate::specs::Tries::tried_at))]
pub fn try_decode(
    level: u32,
    coherent: &[u8],
    noncoherent: &[u8],
    place: Place,
) -> Result<Tried, Refusal>
    ensures { told result ≡ tried_at level coherent.now noncoherent.now place }
{
    check_try(level, coherent, noncoherent, place)?;
    let bit = place.bit;
    let c = crc_at(coherent, bit);
    let d = crc_at(noncoherent, bit);
    Ok(try_six(
        MessageKind::Long,
        level,
        first_at(coherent, bit),
        first_at(noncoherent, bit),
        place,
        bit_errors(c),
        bit_errors(d),
        c != d,
    ))
}
