// An answer against the one in a record: that of the long search stands from byte 264 on, that of the short one from byte 336 on.
ghost use Rattle.std.specs.Prelude.{◌≤◌};

use crate::record::{long_word, word};
use annex10::Repairs;
use place::location::Location;
use place::{Place, Slicer};
use search::{Answer, ShortAnswer};
use words::float::bits_of;

// What the answers of either kind have, the message as a slice.
#[derive(Clone, Copy, Debug, PartialEq)]
struct Fields<'a> {
    number: u32,
    location: Location,
    message: &'a [u8],
    cn0: f32,
    index: u64,
    fraction: f32,
    undecided: u32,
}

fn same_place(r: &[u8; 408], from: usize, p: Place) -> bool
    requires { from ≤ 336 }
{
    word(r, from + 4) as usize == p.bit
        && word(r, from + 8) as usize == p.phase
        && word(r, from + 12) as usize == p.symbol
}

fn same_repairs(r: &[u8; 408], from: usize, repairs: Repairs) -> bool
    requires { from ≤ 336 }
{
    let (count, first, second) = match repairs {
        Repairs::None => (0, 0, 0),
        Repairs::One(j) => (1, j, 0),
        Repairs::Two(j, k) => (2, j, k),
    };
    word(r, from + 16) == count
        && word(r, from + 20) == u32::from(first)
        && word(r, from + 24) == u32::from(second)
}

fn same_slicer(r: &[u8; 408], from: usize, slicer: Slicer) -> bool
    requires { from ≤ 336 }
{
    match slicer {
        Slicer::Coherent => word(r, from + 28) == 0,
        Slicer::Noncoherent => word(r, from + 28) == 1,
    }
}

// A record has room for 14 bytes.
fn same_message(r: &[u8; 408], from: usize, message: &[u8]) -> bool
    requires { from ≤ 336 }
{
    message.len() <= 14 && &r[from + 32..from + 32 + message.len()] == message
}

// The first field that is not the same, if there is one.
fn difference(r: &[u8; 408], from: usize, a: Fields) -> Option<&'static str>
    requires { from ≤ 336 }
{
    let same = [
        ("number", word(r, from) == a.number),
        ("place", same_place(r, from, a.location.place)),
        ("repairs", same_repairs(r, from, a.location.repairs)),
        ("slicer", same_slicer(r, from, a.location.slicer)),
        ("trial", word(r, from + 68) == u32::from(a.location.trial)),
        ("message", same_message(r, from, a.message)),
        ("cn0", word(r, from + 56) == bits_of(a.cn0)),
        ("index", long_word(r, from + 48) == a.index),
        ("fraction", word(r, from + 60) == bits_of(a.fraction)),
        ("undecided", word(r, from + 64) == a.undecided),
    ];
    same.iter().find(|(_, same)| !same).map(|(field, _)| *field)
}

pub fn long_difference(r: &[u8; 408], a: Answer) -> Option<&'static str> {
    let fields = Fields {
        number: a.number,
        location: a.location,
        message: &a.message,
        cn0: a.cn0,
        index: a.index,
        fraction: a.fraction,
        undecided: a.undecided,
    };
    difference(r, 264, fields)
}

pub fn short_difference(r: &[u8; 408], a: ShortAnswer) -> Option<&'static str> {
    let fields = Fields {
        number: a.number,
        location: a.location,
        message: &a.message,
        cn0: a.cn0,
        index: a.index,
        fraction: a.fraction,
        undecided: a.undecided,
    };
    difference(r, 336, fields)
}
