// Binary search in a table of remainders.
ghost use Rattle.std.specs.Prelude.{◌≡◌, ◌/◌, ◌^◌, MatchOption};
ghost use Rattle.annex10.specs.Repair.{clearing};
ghost use Rattle.repairs.specs.Inner.{Rising, Stands, Missing, SingleTable, DoubleTable};

use annex10::{Found, Repairs};

// Where the entry of a remainder stands, if there is one.
fn place(table: &[u32], crc: u32) -> Option<usize>
    requires { Rising table.now }
    ensures { MatchOption result (Missing table.now crc) (Stands table.now crc) }
{
    table.binary_search_by_key(&crc, |entry| *entry >> 8).ok()
}

// The search in the table of single errors.
pub fn single_in(table: &[u32], crc: u32) -> Found
    requires { SingleTable table.now }
    ensures { result ≡ clearing 14 1 crc }
{
    match place(table, crc) {
        Some(i) => Found::At(Repairs::One((table[i] & 0xff) as u8)),
        None => Found::Nothing,
    }
}

// The search in the part of the table of double errors that crc lies in, and in the second positions of that part.
pub fn double_in(table: &[u32], second: &[u8], crc: u32) -> Found
    requires { DoubleTable (crc / 2 ^ 20) table.now second.now }
    ensures { result ≡ clearing 14 2 crc }
{
    match place(table, crc) {
        Some(i) => Found::At(Repairs::Two((table[i] & 0xff) as u8, second[i])),
        None => Found::Nothing,
    }
}
