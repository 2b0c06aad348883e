// Marks of the places that are let through, by starting sample, and the list of the marked ones in the order of the search.
ghost use Rattle.std.specs.Prelude.{◌≡◌, ◌*◌, ◌≤◌, ◌&&◌, length, take, ◌==◌};
ghost use Rattle.lists.specs.Bits.{as_bit};
ghost use Rattle.scan.specs.Sieve.{kept};
ghost use Rattle.scan.specs.Inner.{Marks, marked, any_of, exact_marks};

// A remainder is 0, and the bit that leads is 1.
fn clean(crc: u32, bit: u8) -> u8
    ensures { result ≡ as_bit (crc == 0 && bit == 1) }
{
    u8::from(crc == 0) & u8::from(bit == 1)
}

// Those at which a slicer has a remainder of 0, and a 1 as bit `lead` of its message.
pub fn mark_exact(
    lead: usize,
    coherent: &[u8],
    noncoherent: &[u8],
    crcs: &[u32],
    others: &[u32],
    marks: &mut [u8],
)
    requires { (lead ≤ 1) × (length marks.old ≤ 696) × (length coherent.now ≡ 1152) × (length noncoherent.now ≡ 1152) × (length crcs.now ≡ length marks.old) × (length others.now ≡ length marks.old) }
    ensures { marks.new ≡ exact_marks lead (length marks.old) coherent.now noncoherent.now crcs.now others.now }
{
    for (i, mark) in marks.iter_mut().enumerate() {
        *mark = clean(crcs[i], coherent[8 + i + 8 * lead])
            | clean(others[i], noncoherent[8 + i + 8 * lead]);
    }
}

// All marks joined: 0 where no place is marked, as in nearly every window without a message.
pub fn any(marks: &[u8]) -> u8
    ensures { result ≡ any_of marks.now }
{
    marks.iter().fold(0, |all, mark| all | mark)
}

// The numbers of the marked places of m bit offsets, in their order: as many as the answer says. Without branches: each number is
// stored, and stays where it counts.
pub fn gather(m: usize, marks: &[u8], places: &mut [u16]) -> usize
    requires { (m ≤ 87) × Marks (8 * m) marks.now × (length places.old ≡ 8 * m) }
    ensures { (result ≤ 8 * m) × (result ≡ length (kept (marked marks.now) (8 * m))) × (take result places.new ≡ kept (marked marks.now) (8 * m)) }
{
    let mut count = 0;
    for o in 0..m {
        for k in 0..8 {
            places[count] = (8 * o + k) as u16;
            count += usize::from(marks[8 * o + 4 * (k % 2) + k / 2]);
        }
    }
    count
}
