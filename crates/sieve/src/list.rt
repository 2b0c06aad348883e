// The list of the places that a hash lets through, in the order of the search, and what is to be asked for them.
ghost use Rattle.std.specs.Prelude.{◌≡◌, ◌*◌, ◌≤◌, length, take};
ghost use Rattle.scan.specs.Sieve.{kept, lane_of};
ghost use Rattle.sieve.specs.Inner.{let_in, Within, Gathered};

use crate::slots::Hash;

// The places of m bit offsets of which a remainder is let through: as many as the answer says, from the front on. Each number is stored,
// and stays where it counts.
pub fn list_in(m: usize, hash: &Hash, crcs: &[u32], others: &[u32], list: &mut [u16]) -> usize
    requires { (m ≤ 87) × (length crcs.now ≡ 8 * m) × (length others.now ≡ 8 * m) × (length list.old ≡ 8 * m) }
    ensures { (result ≤ 8 * m) × (take result list.new ≡ kept (let_in hash.now.shape hash.now.displacements.now hash.now.owners.now crcs.now others.now) (8 * m)) }
{
    let mut count = 0;
    // By index: the remainders stand in another order than the places.
    for o in 0..m {
        for k in 0..8 {
            let i = 8 * o + 4 * (k % 2) + k / 2;
            list[count] = (8 * o + k) as u16;
            count += usize::from(hash.lets(crcs[i]) | hash.lets(others[i]));
        }
    }
    count
}

// Where the remainder of a place stands.
fn lane(k: u16) -> usize
    ensures { result ≡ lane_of k }
{
    let place = usize::from(k);
    8 * (place / 8) + 4 * (place % 8 % 2) + place % 8 / 2
}

// What is asked for the first places of a list, two for each.
pub fn gather(
    m: usize,
    hash: &Hash,
    crcs: &[u32],
    others: &[u32],
    list: &[u16],
    count: usize,
    asked: &mut [u32],
)
    requires { (m ≤ 87) × (length crcs.now ≡ 8 * m) × (length others.now ≡ 8 * m) × (length list.now ≡ 8 * m) × (count ≤ 8 * m) × Within (8 * m) list.now count × (length asked.old ≡ 2 * (8 * m)) }
    ensures { Gathered (8 * m) hash.now.shape hash.now.displacements.now hash.now.owners.now crcs.now others.now list.now asked.new count }
{
    // By index: two numbers for each place.
    for j in 0..count {
        let i = lane(list[j]);
        asked[2 * j] = hash.ask(crcs[i]);
        asked[2 * j + 1] = hash.ask(others[i]);
    }
}
