// The types of a search and of its answer. What they mean stands in specs/; no code.
#![tactic(auto)]

use place::location::Location;
use timing::Offset;

// The level is the most bits that are repaired, 0 to 2. A reading with two repairs has to reach the first threshold; if it is
// noncoherent and the slicers differ in as many bits as the distance, also the second.
#[derive(Clone, Copy, Debug, PartialEq)]
pub struct Settings {
    pub level: u32,
    pub threshold: f32,
    pub second: f32,
    pub distance: u32,
}

// A trial that passed, as the location that it names: the reading of its place.
#[derive(Clone, Copy, Debug, PartialEq, Eq)]
pub enum Tried {
    Pass(Location),
    Fail,
}

// A reading, with its message, prompt power and cn0, and how many of the bits that were sliced for it were undecided.
#[derive(Clone, Copy, Debug, PartialEq)]
pub struct Candidate {
    pub location: Location,
    pub message: [u8; 14],
    pub prompt: f32,
    pub cn0: f32,
    pub undecided: u32,
}

// Where the power of a message is looked at: the location, the power there, and how it lies to the message's own.
#[derive(Clone, Copy)]
pub struct Prompt {
    pub location: Location,
    pub power: f32,
    pub offset: Offset,
}

// When a message came: the sample's index and the fraction of a sample.
#[derive(Clone, Copy, Debug, PartialEq)]
pub struct Arrival {
    pub index: u64,
    pub fraction: f32,
}

// What a decode answers. Where the number is not 0 the other fields are zeros, coherent and no repairs.
#[derive(Clone, Copy, Debug, PartialEq)]
pub struct Answer {
    pub number: u32,
    pub location: Location,
    pub message: [u8; 14],
    pub cn0: f32,
    pub index: u64,
    pub fraction: f32,
    pub undecided: u32,
}

// The same for short messages: 7 bytes.
#[derive(Clone, Copy, Debug, PartialEq)]
pub struct ShortCandidate {
    pub location: Location,
    pub message: [u8; 7],
    pub prompt: f32,
    pub cn0: f32,
    pub undecided: u32,
}

#[derive(Clone, Copy, Debug, PartialEq)]
pub struct ShortAnswer {
    pub number: u32,
    pub location: Location,
    pub message: [u8; 7],
    pub cn0: f32,
    pub index: u64,
    pub fraction: f32,
    pub undecided: u32,
}

// Both searches of one window.
#[derive(Clone, Copy, Debug, PartialEq)]
pub struct BothAnswers {
    pub long: Answer,
    pub short: ShortAnswer,
}
