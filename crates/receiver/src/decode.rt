// The decode, and its parts for those who ask how it came about: for long messages, for short ones, for both.
ghost use Rattle.std.specs.Prelude.{◌≡◌, length};
ghost use Rattle.search.specs.Kinds.{long, short};
ghost use Rattle.search.specs.Answers.{read_at, best_of, arrival_at, decode_of};
ghost use Rattle.search.specs.Short.{short_survivor, short_answer};
ghost use Rattle.search.specs.Told.{survivor_told, short_survivor_told};
ghost use Rattle.refusals.specs.Refusals.{told};
ghost use Rattle.receiver.specs.Inner.{kind_of};

use crate::answer::{answer_of, both_in, decode_in, refused, time_in};
use crate::checks::{check_best, check_decode, check_read, check_time};
use crate::lent::Hash;
use crate::narrow::{narrow_answer, narrow_held};
use crate::subsample::power_at;
use crate::window::{best_of, best_of_short, reading_at, reading_at_short};
use annex10::MessageKind;
use kernels::symbols::accumulate_symbols;
use place::Place;
use place::location::Location;
use refusals::Refusal;
use search::{Answer, Arrival, BothAnswers, Candidate, Settings, ShortAnswer, ShortCandidate};

// The surviving reading of one of the 248 places, where there is one. Refused: 2, 4, 5, 7.
#[tactic(auto, using(crate::proofs::Deciding::read_refused))]
pub fn read_place(samples: &[f32], s: Settings, place: Place) -> Result<Option<Candidate>, Refusal>
    ensures { survivor_told result ≡ read_at long samples.now s place }
{
    check_read(MessageKind::Long, samples, s, place)?;
    Ok(reading_at(samples, s, place))
}

// Of one of the 696 places of short messages.
#[tactic(auto, using(crate::proofs::Deciding::short_read_refused))]
pub fn read_place_short(
    samples: &[f32],
    s: Settings,
    place: Place,
) -> Result<Option<ShortCandidate>, Refusal>
    ensures { short_survivor_told result ≡ short_survivor (read_at short samples.now s place) }
{
    check_read(MessageKind::Short, samples, s, place)?;
    Ok(narrow_held(reading_at_short(samples, s, place)))
}

// The best reading of all 248 places, where there is one. Refused: 2, 4, 5.
#[tactic(auto, using(crate::proofs::Deciding::best_refused))]
pub fn find_best_decode_candidate(
    samples: &[f32],
    s: Settings,
) -> Result<Option<Candidate>, Refusal>
    ensures { survivor_told result ≡ best_of long samples.now s }
{
    check_best(samples, s)?;
    let mut sums = [0.0; 2304];
    Ok(best_of(samples, &mut sums, Hash::none(), s))
}

// Of all 696 places of short messages.
#[tactic(auto, using(crate::proofs::Deciding::short_best_refused))]
pub fn find_best_decode_candidate_short(
    samples: &[f32],
    s: Settings,
) -> Result<Option<ShortCandidate>, Refusal>
    ensures { short_survivor_told result ≡ short_survivor (best_of short samples.now s) }
{
    check_best(samples, s)?;
    let mut sums = [0.0; 2304];
    Ok(narrow_held(best_of_short(samples, &mut sums, s)))
}

// When a message at one of the places of its kind came.
#[tactic(auto, using(crate::proofs::Deciding::time_refused))]
fn time_at(
    kind: MessageKind,
    samples: &[f32],
    location: Location,
    message: &[u8],
    index: u64,
) -> Result<Arrival, Refusal>
    requires { length message.now ≡ (kind_of kind).bytes }
    ensures { told result ≡ arrival_at (kind_of kind) samples.now location message.now index }
{
    check_time(kind, samples, location, index)?;
    let mut symbols = [0.0; 2304];
    let _ = accumulate_symbols(samples, &mut symbols);
    let power = power_at(kind, &symbols, location, message);
    Ok(time_in(kind, &symbols, location, message, power, index))
}

// When a message at one of the 248 places came. Refused: 2, 6; its location with 7, 8.
pub fn time_message(
    samples: &[f32],
    location: Location,
    message: [u8; 14],
    index: u64,
) -> Result<Arrival, Refusal>
    ensures { told result ≡ arrival_at long samples.now location message index }
{
    time_at(MessageKind::Long, samples, location, &message, index)
}

// A short one at one of the 696.
pub fn time_message_short(
    samples: &[f32],
    location: Location,
    message: [u8; 7],
    index: u64,
) -> Result<Arrival, Refusal>
    ensures { told result ≡ arrival_at short samples.now location message index }
{
    time_at(MessageKind::Short, samples, location, &message, index)
}

// The message of a window, with all that is said of it. Refused: 2, 4, 5, 6; number 1 where there is none.
pub fn decode(samples: &[f32], s: Settings, index: u64) -> Answer
    ensures { result ≡ decode_of long samples.now s index }
{
    let mut sums = [0.0; 2304];
    decode_in(samples, &mut sums, Hash::none(), s, index)
}

// The short message of a window. At most one bit is repaired, so the thresholds and the distance have no effect.
pub fn decode_short(samples: &[f32], s: Settings, index: u64) -> ShortAnswer
    ensures { result ≡ short_answer (decode_of short samples.now s index) }
{
    if let Err(refusal) = check_decode(samples, s, index) {
        return narrow_answer(refused(refusal.number()));
    }
    let mut sums = [0.0; 2304];
    let read = best_of_short(samples, &mut sums, s);
    narrow_answer(answer_of(MessageKind::Short, &sums, read, index))
}

fn both(slowly: bool, samples: &[f32], s: Settings, index: u64) -> BothAnswers
    ensures { result ≡ record { long = decode_of long samples.now s index; short = short_answer (decode_of short samples.now s index) } }
{
    let mut sums = [0.0; 2304];
    let both = both_in(slowly, samples, &mut sums, Hash::none(), s, index);
    BothAnswers {
        long: both.long,
        short: narrow_answer(both.short),
    }
}

// Both searches of a window: what each of the two calls answers, with sums and bits made once.
pub fn decode_both(samples: &[f32], s: Settings, index: u64) -> BothAnswers
    ensures { result ≡ record { long = decode_of long samples.now s index; short = short_answer (decode_of short samples.now s index) } }
{
    both(false, samples, s, index)
}

// The same, with every message of every place repaired by trial.
pub fn decode_both_slowly(samples: &[f32], s: Settings, index: u64) -> BothAnswers
    ensures { result ≡ record { long = decode_of long samples.now s index; short = short_answer (decode_of short samples.now s index) } }
{
    both(true, samples, s, index)
}
