// What is answered of a window: what was found, with its time. Memory for the sums is lent, and a hash may be.
ghost use Rattle.std.specs.Prelude.{◌≡◌, true, ◌≤◌, ◌^◌, length};
ghost use Rattle.place.specs.Step.{sample_start};
ghost use Rattle.place.specs.All.{listed};
ghost use Rattle.kernels.specs.Symbols.{symbols_in};
ghost use Rattle.search.specs.Kinds.{long, short};
ghost use Rattle.search.specs.When.{index_of};
ghost use Rattle.search.specs.Answers.{refused_answer, decode_of};
ghost use Rattle.timing.specs.Inner.{moves_count};
ghost use Rattle.receiver.specs.Inner.{kind_of, cut_answer, Searched, power_in, arrival_in, Weighed, answer_in};

use crate::checks::check_decode;
use crate::kinds::bytes_of;
use crate::lent::Hash;
use crate::subsample::subsample;
use crate::window::{best_of, best_of_both};
use annex10::{MessageKind, Repairs};
use kernels::symbols::symbols_of_sums;
use place::location::Location;
use place::{Place, Slicer};
use search::{Answer, Arrival, Candidate, Settings};
use timing::Moves;

// Zeros, with a number.
#[tactic(auto, unfolding(search::specs::Kinds::long))]
pub fn refused(number: u32) -> Answer
    ensures { result ≡ refused_answer long number }
{
    Answer {
        number,
        location: Location {
            place: Place {
                bit: 0,
                phase: 0,
                symbol: 0,
            },
            trial: 0,
            slicer: Slicer::Coherent,
            repairs: Repairs::None,
        },
        message: [0; 14],
        cn0: 0.0,
        index: 0,
        fraction: 0.0,
        undecided: 0,
    }
}

// The given index is that of the window's sample 128.
fn index_of(given: u64, place: Place, moves: Moves) -> u64
    requires { (128 ≤ given) × (given ≤ 2 ^ 63) × (listed 87 place ≡ true) × (moves_count moves ≤ 2) }
    ensures { result ≡ index_of given (sample_start place) moves }
{
    let start = 4 * (2 * place.bit + place.symbol) + place.phase;
    let index = given - 128 + start as u64;
    match moves {
        Moves::On(n) => index + n,
        Moves::Back(n) => index - n,
    }
}

// When a message at one of the places that are searched came, with its power there.
pub fn time_in(
    kind: MessageKind,
    symbols: &[f32],
    location: Location,
    message: &[u8],
    power: f32,
    index: u64,
) -> Arrival
    requires { (length symbols.now ≡ 2304) × Searched (kind_of kind) location × (128 ≤ index) × (index ≤ 2 ^ 63) × (length message.now ≡ (kind_of kind).bytes) × (power ≡ power_in (kind_of kind) symbols.now location.place message.now) }
    ensures { result ≡ arrival_in (kind_of kind) symbols.now location message.now index }
{
    let t = subsample(kind, symbols, location, message, power);
    Arrival {
        index: index_of(index, location.place, t.moves),
        fraction: t.fraction,
    }
}

// What was found, with its time. The symbols are set out only where there is something to time.
pub fn answer_of(kind: MessageKind, sums: &[f32], read: Option<Candidate>, index: u64) -> Answer
    requires { (length sums.now ≡ 2304) × (128 ≤ index) × (index ≤ 2 ^ 63) × Weighed (kind_of kind) (symbols_in sums.now) read }
    ensures { result ≡ answer_in (kind_of kind) (symbols_in sums.now) index read }
{
    let Some(c) = read else {
        return refused(1);
    };
    let mut symbols = [0.0; 2304];
    let _ = symbols_of_sums(sums, &mut symbols);
    let message = c.message;
    let timed = time_in(
        kind,
        &symbols,
        c.location,
        &message[..bytes_of(kind)],
        c.prompt,
        index,
    );
    Answer {
        number: 0,
        location: c.location,
        message,
        cn0: c.cn0,
        index: timed.index,
        fraction: timed.fraction,
        undecided: c.undecided,
    }
}

// The message of a window.
pub fn decode_in(samples: &[f32], sums: &mut [f32], hash: Hash, s: Settings, index: u64) -> Answer
    requires { length sums.old ≡ 2304 }
    ensures { result ≡ decode_of long samples.now s index }
{
    if let Err(refusal) = check_decode(samples, s, index) {
        return refused(refusal.number());
    }
    let read = best_of(samples, sums, hash, s);
    answer_of(MessageKind::Long, sums, read, index)
}

// What both searches answer: the short one's message has room for 14 bytes.
#[derive(Clone, Copy, Debug, PartialEq)]
pub struct BothIn {
    pub long: Answer,
    pub short: Answer,
}

// Of both, with sums and bits made once.
pub fn both_in(
    slowly: bool,
    samples: &[f32],
    sums: &mut [f32],
    hash: Hash,
    s: Settings,
    index: u64,
) -> BothIn
    requires { length sums.old ≡ 2304 }
    ensures { (result.long ≡ decode_of long samples.now s index) × (cut_answer result.short ≡ decode_of short samples.now s index) }
{
    if let Err(refusal) = check_decode(samples, s, index) {
        let answer = refused(refusal.number());
        return BothIn {
            long: answer,
            short: answer,
        };
    }
    let read = best_of_both(slowly, samples, sums, hash, s);
    BothIn {
        long: answer_of(MessageKind::Long, sums, read.long, index),
        short: answer_of(MessageKind::Short, sums, read.short, index),
    }
}
