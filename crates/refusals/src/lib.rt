// What a call refuses, by the rules' names and numbers.
#![tactic(auto)]

ghost use Rattle.std.specs.Prelude.{◌≡◌, Some};
ghost use Rattle.refusals.specs.Refusals.{number, told_number, refusal_text};

use std::error::Error;
use std::fmt;

// Number 0 is done and 1 is nothing found: neither is a refusal.
#[derive(Clone, Copy, Debug, PartialEq, Eq)]
pub enum Refusal {
    Input,
    Output,
    Level,
    Threshold,
    Index,
    Place,
    Position,
    HalfWidth,
    Malformed,
}

impl Refusal {
    pub fn number(self) -> u32
        ensures { result ≡ number self }
    {
        match self {
            Refusal::Input => 2,
            Refusal::Output => 3,
            Refusal::Level => 4,
            Refusal::Threshold => 5,
            Refusal::Index => 6,
            Refusal::Place => 7,
            Refusal::Position => 8,
            Refusal::HalfWidth => 9,
            Refusal::Malformed => 10,
        }
    }
}

impl fmt::Display for Refusal {
    ghost output = { λ refusal. Some (refusal_text refusal) };

    fn fmt<W: fmt::Write>(&self, f: &mut fmt::Formatter<W>) -> fmt::Result {
        f.write_str(match self {
            Refusal::Input => "an input of the wrong length",
            Refusal::Output => "an output of the wrong length",
            Refusal::Level => "a level above 2",
            Refusal::Threshold => "a threshold that is not finite",
            Refusal::Index => "an index below 128 or above 2^63",
            Refusal::Place => "a place or an offset out of its range",
            Refusal::Position => "a position behind the message",
            Refusal::HalfWidth => "a half-width too large",
            Refusal::Malformed => "an input that is malformed",
        })
    }
}

impl Error for Refusal {}

// The number of what was done or refused, for callers that take no more than a number: 0 is done.
pub fn number_of(done: Result<(), Refusal>) -> u32
    ensures { result ≡ told_number done }
{
    match done {
        Ok(()) => 0,
        Err(refusal) => refusal.number(),
    }
}
