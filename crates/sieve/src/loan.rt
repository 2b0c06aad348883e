// The hashes that a caller lends, and the positions that their slots name for a remainder. Any number may stand there: nothing is promised
// of what is named, and whoever takes it checks it (`repairs::named`).
ghost use Rattle.std.specs.Prelude.{◌≡◌, ◌<◌, ℕ, List, true, false, length, take, drop, slice_index, MatchResult};
ghost use Rattle.refusals.specs.declared.Refusal.TheVariants.{Input};
ghost use Rattle.sieve.specs.Hash.{at_one, at_two, hash_fits, asked_in};

use crate::slots::{AT_ONE, AT_TWO, Hash};
use annex10::Repairs;
use refusals::Refusal;
use repairs::named::pattern_of;

// That of one error stands in front, and a position for each of its slots behind all displacements.
#[derive(Clone, Copy, Debug, PartialEq, Eq)]
pub struct Lent<'a> {
    pub displacements: &'a [u8],
    pub owners: &'a [u16],
    ghost all_displacements: { length displacements.now ≡ 2688 },
    ghost all_owners: { length owners.now ≡ 8704 },
    ghost bytes: { (i : ℕ) → slice_index displacements.now i < 256 },
}

impl<'a> Lent<'a> {
    ghost use Rattle.sieve.specs.InnerLent.{asked_by};

    // Nothing is lent, or as much as the hashes have.
    pub fn new(displacements: &'a [u8], owners: &'a [u16]) -> Result<Option<Lent<'a>>, Refusal>
        ensures { MatchResult result (λ lent. (hash_fits displacements.now owners.now ≡ true) × ((level : ℕ) (crcs : List ℕ) → asked_by lent level crcs ≡ asked_in level displacements.now owners.now crcs)) (λ refusal. (refusal ≡ Input) × (hash_fits displacements.now owners.now ≡ false)) }
    {
        match (displacements.len(), owners.len()) {
            (0, 0) => Ok(None),
            (2688, 8704) => Ok(Some(Lent {
                displacements,
                owners,
            })),
            _ => Err(Refusal::Input),
        }
    }

    pub fn one(&self) -> Hash<'a>
        ensures shape { result.shape ≡ at_one }
        ensures displacements { result.displacements.now ≡ take 128 self.now.displacements.now }
        ensures owners { result.owners.now ≡ take 512 self.now.owners.now }
    {
        Hash {
            shape: AT_ONE,
            displacements: &self.displacements[..128],
            owners: &self.owners[..512],
        }
    }

    pub fn two(&self) -> Hash<'a>
        ensures shape { result.shape ≡ at_two }
        ensures displacements { result.displacements.now ≡ take 2048 (drop 128 self.now.displacements.now) }
        ensures owners { result.owners.now ≡ drop 512 self.now.owners.now }
    {
        Hash {
            shape: AT_TWO,
            displacements: &self.displacements[128..2176],
            owners: &self.owners[512..],
        }
    }

    // By the hash of one error. 255 is none.
    fn name_one(&self, crc: u32) -> u8 {
        let hash = self.one();
        if !hash.lets(crc) {
            return 255;
        }
        self.displacements[2176 + hash.slot(crc)]
    }

    // By the hash of two: the slot names the byte in which the last position lies.
    fn name_byte(&self, crc: u32) -> u8
        ensures { result < 16 }
    {
        let hash = self.two();
        (hash.owners[hash.slot(crc)] >> 12) as u8
    }

    // Each of its eight positions is taken away in turn, and the rest is asked for a first one. The pattern of the position before is x
    // times that of the next.
    fn name_two(&self, crc: u32) -> Repairs {
        let end = 8 * self.name_byte(crc) + 7;
        let mut power = pattern_of(end);
        for i in 0..8 {
            let last = end - i;
            let first = self.name_one(crc ^ power);
            if first < last {
                return Repairs::Two(first, last);
            }
            power = (power << 1) ^ (0u32.wrapping_sub(power >> 23) & 0x1fff409);
        }
        Repairs::None
    }

    // For at most so many positions, one before two. 0 needs none, and what has more than 24 bits is no remainder.
    pub fn name(&self, level: u32, crc: u32) -> Repairs {
        if crc == 0 || crc >= 0x1000000 {
            return Repairs::None;
        }
        let one = self.name_one(crc);
        if one < 112 {
            return Repairs::One(one);
        }
        if level == 1 {
            return Repairs::None;
        }
        self.name_two(crc)
    }
}
