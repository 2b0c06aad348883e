// The hash that a caller may write out once and lend to many calls.
ghost use Rattle.std.specs.Prelude.{◌≡◌};
ghost use Rattle.refusals.specs.Refusals.{told_number};
ghost use Rattle.sieve.specs.Hash.{hash_into};

use crate::tables::{ONE_DISPLACEMENTS, ONE_OWNERS, ONE_POSITIONS, TWO_DISPLACEMENTS, TWO_OWNERS};
use refusals::Refusal;

// Which bits of a remainder choose the displacement, which the slot, and which are the owner's.
#[derive(Clone, Copy, Debug, PartialEq, Eq)]
pub struct Shape {
    pub index: u32,
    pub shift: u32,
    pub slots: u32,
    pub low: u32,
}

// To lent memory: 2,176 displacements with 512 positions behind them, and 8,704 owners, that of one error in front. Refused: other sizes.
pub fn write_hash(displacements: &mut [u8], owners: &mut [u16]) -> Result<(), Refusal>
    ensures { (told_number result, displacements.new, owners.new) ≡ hash_into displacements.old owners.old }
{
    if displacements.len() != 2688 || owners.len() != 8704 {
        return Err(Refusal::Output);
    }
    displacements[..128].copy_from_slice(&ONE_DISPLACEMENTS);
    displacements[128..2176].copy_from_slice(&TWO_DISPLACEMENTS);
    displacements[2176..].copy_from_slice(&ONE_POSITIONS);
    owners[..512].copy_from_slice(&ONE_OWNERS);
    owners[512..].copy_from_slice(&TWO_OWNERS);
    Ok(())
}
