// The lines of a listing, as bytes.
#![tactic(auto)]

mod entries;
mod fields;
pub mod lines;
mod put;

ghost use Rattle.std.specs.Prelude.{◌≡◌, length};
ghost use Rattle.annex10.specs.Length.{message_bytes};

use annex10::MessageKind;
use place::location::Location;

// A line, or the two of a window. Of the bytes only the first `length` count; the others are zeros.
#[derive(Clone, Copy, Debug, PartialEq, Eq)]
pub struct Text {
    pub length: usize,
    pub bytes: [u8; 256],
}

impl Text {
    pub const EMPTY: Text = Text {
        length: 0,
        bytes: [0; 256],
    };
}

// An answer of either kind of message, for its line.
#[derive(Clone, Copy, Debug, PartialEq)]
pub(crate) struct Entry<'a> {
    kind: MessageKind,
    number: u32,
    location: Location,
    message: &'a [u8],
    cn0: f32,
    index: u64,
    fraction: f32,
    undecided: u32,
    ghost long: { length message.now ≡ message_bytes kind },
}
