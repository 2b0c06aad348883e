// From the remainders to the places that so many repairs can clear.
ghost use Rattle.std.specs.Prelude.{◌≡◌, ◌*◌, ◌≤◌, length, take};
ghost use Rattle.lists.specs.Told.{done};
ghost use Rattle.annex10.specs.Length.{message_bytes, most_repairs};
ghost use Rattle.scan.specs.Sieve.{kept};
ghost use Rattle.sieve.specs.Repairable.{repairable_in};
ghost use Rattle.sieve.specs.Inner.{let_in, Gathered, Sifted};
ghost use Rattle.sieve.specs.InnerLent.{asked_by};

use crate::keep::keep;
use crate::list::{gather, list_in};
use crate::loan::Lent;
use crate::slots::Hash;
use crate::tell::tell;
use annex10::MessageKind;

// The places that a hash lets through, and what is to be asked for them.
fn sift_in(
    m: usize,
    hash: &Hash,
    crcs: &[u32],
    others: &[u32],
    through: &mut [u16],
    asked: &mut [u32],
) -> usize
    requires { (m ≤ 87) × (length crcs.now ≡ 8 * m) × (length others.now ≡ 8 * m) × (length through.old ≡ 8 * m) × (length asked.old ≡ 2 * (8 * m)) }
    ensures { (result ≤ 8 * m) × (length through.new ≡ 8 * m) × (take result through.new ≡ kept (let_in hash.now.shape hash.now.displacements.now hash.now.owners.now crcs.now others.now) (8 * m)) × Gathered (8 * m) hash.now.shape hash.now.displacements.now hash.now.owners.now crcs.now others.now through.new asked.new result }
{
    let count = list_in(m, hash, crcs, others, through);
    gather(m, hash, crcs, others, through, count, asked);
    count
}

// By the hash of the level: the lent one, or its own where nothing is lent. Each is asked apart, so that its shape is known there.
fn sift(
    level: u32,
    m: usize,
    lent: Option<Lent>,
    crcs: &[u32],
    others: &[u32],
    through: &mut [u16],
    asked: &mut [u32],
) -> usize
    requires { (1 ≤ level) × (level ≤ 2) × (m ≤ 87) × (length crcs.now ≡ 8 * m) × (length others.now ≡ 8 * m) × (length through.old ≡ 8 * m) × (length asked.old ≡ 2 * (8 * m)) }
    ensures { Sifted level (8 * m) (asked_by lent.entry level crcs.now) (asked_by lent.entry level others.now) through.new asked.new result }
{
    match lent {
        Some(lent) if level == 1 => sift_in(m, &lent.one(), crcs, others, through, asked),
        Some(lent) => sift_in(m, &lent.two(), crcs, others, through, asked),
        None if level == 1 => sift_in(m, &Hash::one(), crcs, others, through, asked),
        None => sift_in(m, &Hash::two(), crcs, others, through, asked),
    }
}

// What clears is asked once for all that were let through. What is told has room for the places of either kind.
pub fn find(
    kind: MessageKind,
    level: u32,
    m: usize,
    lent: Option<Lent>,
    crcs: &[u32],
    others: &[u32],
    through: &mut [u16],
    asked: &mut [u32],
    list: &mut [u16],
    codes: &mut [u32],
) -> usize
    requires { (1 ≤ level) × (level ≤ most_repairs kind) × (m ≤ 87) × (length crcs.now ≡ 8 * m) × (length others.now ≡ 8 * m) × (length through.old ≡ 8 * m) × (length asked.old ≡ 2 * (8 * m)) × (length list.old ≡ 8 * m) × (length codes.old ≡ 2 * (8 * m)) }
    ensures { (done result, list.new, codes.new) ≡ repairable_in (message_bytes kind) level (8 * m) (asked_by lent.entry level crcs.now) (asked_by lent.entry level others.now) list.old codes.old }
{
    let count = sift(level, m, lent, crcs, others, through, asked);
    if count == 0 {
        return 0;
    }
    let mut told = [0; 1392];
    tell(
        kind,
        level,
        lent,
        &asked[..2 * count],
        &mut told[..2 * count],
    );
    keep(through, &told, count, list, codes)
}
