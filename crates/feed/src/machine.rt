// An input in parts: what is wanted, what becomes of it, what is to be said.
ghost use Rattle.std.specs.Prelude.{◌≡◌, cond, eqb, length, Ok, Err};
ghost use Rattle.feed.specs.Machine.{start_of, wanted_of, fed_of, failed_of};
ghost use Rattle.feed.specs.Inner.{settled};

use crate::head::{fed_index, fed_number};
use crate::moves::{blank, refuses, silent};
use crate::samples::fed_samples;
use crate::{Fed, Field, Stage, State};
use refusals::Refusal;
use words::numbers::{long, word};

// Before the first part.
#[tactic(auto, unfolding(crate::specs::Machine::start_of))]
pub fn start() -> State
    ensures { result ≡ start_of }
{
    blank(Stage::Number(Field::SettingsCount))
}

// How many bytes the next part has; 0: all is over.
#[tactic(auto, unfolding(crate::specs::Machine::wanted_of))]
pub fn wanted(state: State) -> usize
    ensures { result ≡ wanted_of state }
{
    match state.stage {
        Stage::Number(_) => 4,
        Stage::Index => 8,
        Stage::Samples => 9240,
        Stage::End => 1,
        Stage::Over => 0,
    }
}

// The bytes of a part. One of another length is malformed.
fn bytes_of<const N: usize>(part: &[u8]) -> Result<[u8; N], Refusal>
    ensures { result ≡ cond (eqb (length part.now) N) (Ok part.now) (Err Refusal.Malformed) }
{
    part.try_into().map_err(|_| Refusal::Malformed)
}

// What becomes of a state with the part that was wanted.
#[tactic(auto, unfolding(crate::specs::Machine::fed_of, crate::specs::Machine::sized, crate::specs::Machine::provided))]
fn taken(state: State, part: &[u8]) -> Result<Fed, Refusal>
    ensures { settled result ≡ fed_of state part.now }
{
    match state.stage {
        Stage::Number(f) => fed_number(f, state, word(bytes_of(part)?)),
        Stage::Index => fed_index(state, long(bytes_of(part)?)),
        Stage::Samples if part.len() == 9240 => fed_samples(state),
        Stage::End if part.is_empty() => Ok(silent(blank(Stage::Over))),
        Stage::Samples | Stage::End => Err(Refusal::Malformed),
        Stage::Over => Ok(silent(state)),
    }
}

// Takes the part that was wanted. A shorter one says that the input ended there; a longer one is malformed.
pub fn feed(state: State, part: &[u8]) -> Fed
    ensures { result ≡ fed_of state part.now }
{
    taken(state, part).unwrap_or_else(refuses)
}

// The part could not be read.
#[tactic(auto, unfolding(crate::specs::Machine::failed_of))]
pub fn failed(state: State) -> Fed
    ensures { result ≡ failed_of state }
{
    if wanted(state) == 0 {
        silent(state)
    } else {
        refuses(Refusal::Malformed)
    }
}
