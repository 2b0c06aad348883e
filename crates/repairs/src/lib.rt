// The positions of one or two wrong bits of a 14-byte message, from its remainder, and of one of a 7-byte message: by sorted tables, or
// from positions that somebody names, if they fit. And the repair of a message by the tables.
#![tactic(auto)]

mod codes;
mod fewest;
pub mod named;
mod parts;
pub mod rows;
mod search;
mod tables;

ghost use Rattle.std.specs.Prelude.{◌≡◌};
ghost use Rattle.refusals.specs.Refusals.{told};
ghost use Rattle.annex10.specs.Repair.{clearing};
ghost use Rattle.annex10.specs.Mend.{repair_of};

use crate::fewest::fewest;
use crate::parts::part_of;
use crate::search::{double_in, single_in};
use crate::tables::SINGLE;
use annex10::Found;
use mode_s::crc::crc24;
use refusals::Refusal;

// The position whose pattern has the remainder crc, if there is one.
pub fn single_bit_error_from_crc24(crc: u32) -> Found
    ensures { result ≡ clearing 14 1 crc }
{
    single_in(&SINGLE, crc)
}

// The two positions whose pattern has the remainder crc, if there are such.
#[tactic(auto, using(crate::proofs::Lookup::no_part))]
pub fn double_bit_error_from_crc24(crc: u32) -> Found
    ensures { result ≡ clearing 14 2 crc }
{
    match part_of(crc >> 20) {
        Some((table, second)) => double_in(table, second, crc),
        None => Found::Nothing,
    }
}

// The fewest positions, at most `level`, that clear a message of 14 bytes, by the tables. Refused: another length, a level above 2.
pub fn repair(level: u32, message: &[u8]) -> Result<Found, Refusal>
    ensures { told result ≡ repair_of 14 2 level message.now }
{
    if message.len() != 14 {
        return Err(Refusal::Input);
    }
    if level > 2 {
        return Err(Refusal::Level);
    }
    Ok(fewest(level, crc24(message)))
}
