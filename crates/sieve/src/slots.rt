// A hash of one level, as it is asked: its own tables, or a part of what a caller lends.
ghost use Rattle.std.specs.Prelude.{◌≡◌, ◌<◌, length};
ghost use Rattle.sieve.specs.Hash.{slot_of, lets, asks};
ghost use Rattle.sieve.specs.Inner.{Slotted, Owners};

use crate::hash::Shape;
use crate::tables::{ONE_DISPLACEMENTS, ONE_OWNERS, TWO_DISPLACEMENTS, TWO_OWNERS};

pub const AT_ONE: Shape = Shape {
    index: 0x7f,
    shift: 15,
    slots: 0x1ff,
    low: 0xffff,
};

pub const AT_TWO: Shape = Shape {
    index: 0x7ff,
    shift: 11,
    slots: 0x1fff,
    low: 0xfff,
};

#[derive(Clone, Copy, Debug, PartialEq, Eq)]
pub struct Hash<'a> {
    pub shape: Shape,
    pub displacements: &'a [u8],
    pub owners: &'a [u16],
    ghost slotted: { Slotted shape displacements.now owners.now },
}

impl Hash<'_> {
    // The tables of one error, and those of one or two.
    pub fn one() -> Hash<'static>
        ensures { Owners 1 result.shape result.displacements.now result.owners.now }
    {
        Hash {
            shape: AT_ONE,
            displacements: &ONE_DISPLACEMENTS,
            owners: &ONE_OWNERS,
        }
    }

    pub fn two() -> Hash<'static>
        ensures { Owners 2 result.shape result.displacements.now result.owners.now }
    {
        Hash {
            shape: AT_TWO,
            displacements: &TWO_DISPLACEMENTS,
            owners: &TWO_OWNERS,
        }
    }

    // The slot of a remainder.
    pub fn slot(&self, crc: u32) -> usize
        ensures value { result ≡ slot_of self.now.shape self.now.displacements.now crc }
        ensures there { result < length self.now.owners.now }
    {
        let displacement = u32::from(self.displacements[(crc & self.shape.index) as usize]);
        (((crc >> self.shape.shift) & self.shape.slots) ^ displacement) as usize
    }

    // Whether a remainder owns its slot.
    #[tactic(auto, unfolding(crate::specs::Hash::lets))]
    pub fn lets(&self, crc: u32) -> bool
        ensures { result ≡ lets self.now.shape self.now.displacements.now self.now.owners.now crc }
    {
        u32::from(self.owners[self.slot(crc)]) & self.shape.low == crc & self.shape.low
    }

    // What is asked in place of a remainder: one that is not let through, and is not 0, is not worth a search.
    #[tactic(auto, unfolding(crate::specs::Hash::asks))]
    pub fn ask(&self, crc: u32) -> u32
        ensures { result ≡ asks self.now.shape self.now.displacements.now self.now.owners.now crc }
    {
        if self.lets(crc) || crc == 0 {
            crc
        } else {
            0x1000000
        }
    }
}
