// The places whose remainders at least one repair and at most so many can clear. A hash lets them through, and what clears is asked for
// those alone. A caller may lend the hash: then its slots name what may clear. Else the sorted tables are asked.
#![tactic(auto)]

mod find;
pub mod hash;
mod keep;
mod list;
mod loan;
mod slots;
mod tables;
mod tell;

ghost use Rattle.std.specs.Prelude.{◌≡◌, ◌*◌, ◌≤◌};
ghost use Rattle.refusals.specs.Refusals.{told};
ghost use Rattle.annex10.specs.Length.{message_bytes, most_repairs};
ghost use Rattle.place.specs.All.{last_bit};
ghost use Rattle.sieve.specs.Hash.{sieved_into};

use crate::find::find;
use crate::loan::Lent;
use annex10::MessageKind;
use refusals::Refusal;

// Of the N places of m bit offsets, with memory for those that are let through and for the two remainders that are asked for each.
fn find_of<const N: usize, const ASKED: usize>(
    kind: MessageKind,
    m: usize,
    level: u32,
    displacements: &[u8],
    owners: &[u16],
    crcs: &[u32],
    others: &[u32],
    list: &mut [u16],
    codes: &mut [u32],
) -> Result<usize, Refusal>
    requires { (m ≤ 87) × (N ≡ 8 * m) × (ASKED ≡ 2 * N) }
    ensures { (told result, list.new, codes.new) ≡ sieved_into (message_bytes kind) (most_repairs kind) N level displacements.now owners.now crcs.now others.now list.old codes.old }
{
    let lent = Lent::new(displacements, owners)?;
    if crcs.len() != N || others.len() != N {
        return Err(Refusal::Input);
    }
    if list.len() != N || codes.len() != 2 * N {
        return Err(Refusal::Output);
    }
    if level > 2 {
        return Err(Refusal::Level);
    }
    if level == 0 {
        return Ok(0);
    }
    let level = level.min(kind.most());
    let mut through = [0; N];
    let mut asked = [0; ASKED];
    Ok(find(
        kind,
        level,
        m,
        lent,
        crcs,
        others,
        &mut through,
        &mut asked,
        list,
        codes,
    ))
}

// By the remainders of both slicers: the numbers of the places in the order of the search, and the codes of both remainders of each. The
// hash that `write_hash` writes is lent, or nothing. Refused: not 248 remainders or a hash of another size, not room for 248 places and
// 496 codes, a level above 2. For short messages, of which at most one repair clears one, 696 remainders and places and 1,392 codes.
pub fn find_repairable(
    kind: MessageKind,
    level: u32,
    displacements: &[u8],
    owners: &[u16],
    crcs: &[u32],
    others: &[u32],
    list: &mut [u16],
    codes: &mut [u32],
) -> Result<usize, Refusal>
    ensures { (told result, list.new, codes.new) ≡ sieved_into (message_bytes kind) (most_repairs kind) (8 * last_bit kind) level displacements.now owners.now crcs.now others.now list.old codes.old }
{
    match kind {
        MessageKind::Short => find_of::<696, 1392>(
            kind,
            87,
            level,
            displacements,
            owners,
            crcs,
            others,
            list,
            codes,
        ),
        MessageKind::Long => find_of::<248, 496>(
            kind,
            31,
            level,
            displacements,
            owners,
            crcs,
            others,
            list,
            codes,
        ),
    }
}
