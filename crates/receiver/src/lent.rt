// What goes through a search together.
ghost use Rattle.std.specs.Prelude.{◌≡◌, ◌*◌, ◌≤◌, [], length};
ghost use Rattle.kernels.specs.Symbols.{sums_of};
ghost use Rattle.sieve.specs.Hash.{Hashed};
ghost use Rattle.receiver.specs.Inner.{Scanned, kind_of};

use annex10::MessageKind;
use search::Settings;

// A window, with what the scan has made of it for one kind of message.
#[derive(Clone, Copy)]
pub struct Scan<'a> {
    pub kind: MessageKind,
    pub samples: &'a [f32],
    pub sums: &'a [f32],
    pub coherent: &'a [u8],
    pub noncoherent: &'a [u8],
    pub crcs: &'a [u32],
    pub others: &'a [u32],
    ghost scanned: { Scanned (kind_of kind) samples.now coherent.now noncoherent.now crcs.now others.now },
    ghost summed: { sums.now ≡ sums_of samples.now },
}

// The hash that a caller may lend: nothing, or all of it.
#[derive(Clone, Copy)]
pub struct Hash<'a> {
    pub displacements: &'a [u8],
    pub owners: &'a [u16],
    ghost hashed: { ∥ Hashed displacements.now owners.now ∥₁ },
}

impl<'a> Hash<'a> {
    // Nothing is lent.
    pub fn none() -> Hash<'a>
        ensures { (result.displacements.now ≡ []) × (result.owners.now ≡ []) }
    {
        Hash {
            displacements: &[],
            owners: &[],
        }
    }
}

// Places by their numbers, and the codes of what clears the two messages of each: as many as are counted.
#[derive(Clone, Copy)]
pub struct Places<'a> {
    pub numbers: &'a [u16],
    pub codes: &'a [u32],
    pub count: usize,
    ghost few: { count ≤ 696 },
    ghost numbered: { count ≤ length numbers.now },
    ghost coded: { 2 * count ≤ length codes.now },
}

// The windows of a tray, and what is asked for each.
#[derive(Clone, Copy)]
pub struct Windows<'a, 'b> {
    pub n: usize,
    pub samples: &'a [f32],
    pub s: Settings,
    pub indices: &'b [u64],
    ghost few: { n ≤ 64 },
    ghost each: { length samples.now ≡ 2310 * n },
    ghost one: { length indices.now ≡ n },
}
