// Every place by trial: what clears its two messages is found by turning bits over and dividing. Neither a hash nor a table is asked.
ghost use Rattle.std.specs.Prelude.{◌≡◌, true, ℕ, ◌+◌, ◌*◌, ◌<◌, ◌≤◌, min, length};
ghost use Rattle.lists.specs.From.{tabulate};
ghost use Rattle.annex10.specs.Remainder.{remainder};
ghost use Rattle.annex10.specs.Mend.{repair_of};
ghost use Rattle.refusals.specs.Refusals.{told};
ghost use Rattle.place.specs.All.{listed};
ghost use Rattle.streams.specs.Streams.{message_at};
ghost use Rattle.scan.specs.Lanes.{lane_bytes};
ghost use Rattle.repairs.specs.Codes.{code_up_to};
ghost use Rattle.search.specs.Kinds.{long, short};
ghost use Rattle.receiver.specs.Inner.{Stream, kind_of, trial_code};

use crate::find::place_at;
use crate::lanes::lane_of;
use annex10::codes::code_of;
use annex10::{Found, MessageKind};
use place::Place;
use refusals::Refusal;
use slow::{repair_slowly, repair_slowly_short};
use streams::message::{extract_message, extract_message_short};

fn mend_long(level: u32, stream: &[u8], bit: usize) -> Result<Found, Refusal>
    requires { Stream long stream.now bit }
    ensures { told result ≡ repair_of 14 2 level (message_at stream.now 14 bit) }
{
    let bytes = extract_message(stream, bit)?;
    repair_slowly(level, &bytes)
}

fn mend_short(level: u32, stream: &[u8], bit: usize) -> Result<Found, Refusal>
    requires { Stream short stream.now bit }
    ensures { told result ≡ repair_of 7 1 level (message_at stream.now 7 bit) }
{
    let bytes = extract_message_short(stream, bit)?;
    repair_slowly_short(level, &bytes)
}

// What clears the message at a bit offset of a stream.
#[tactic(auto, unfolding(search::specs::Kinds::long, search::specs::Kinds::short))]
fn mend(kind: MessageKind, level: u32, stream: &[u8], bit: usize) -> Result<Found, Refusal>
    requires { Stream (kind_of kind) stream.now bit }
    ensures { told result ≡ repair_of (kind_of kind).bytes (kind_of kind).most level (message_at stream.now (kind_of kind).bytes bit) }
{
    match kind {
        MessageKind::Long => mend_long(level, stream, bit),
        MessageKind::Short => mend_short(level, stream, bit),
    }
}

// What clears a slicer's message at a place, as a code.
fn code_at(kind: MessageKind, level: u32, bits: &[u8], place: Place) -> u32
    requires { (length bits.now ≡ 1152) × (listed (kind_of kind).last place ≡ true) × (level ≤ 2) }
    ensures { result ≡ code_up_to (kind_of kind).bytes (min level (kind_of kind).most) (remainder (message_at (lane_bytes bits.now (4 * place.symbol + place.phase)) (kind_of kind).bytes place.bit)) }
{
    let stream = lane_of(bits, 4 * place.symbol + place.phase);
    code_of(mend(kind, level, &stream, place.bit).unwrap_or(Found::Nothing))
}

// Code i: each place has two, the coherent slicer's and then the other's.
fn trial_code(kind: MessageKind, level: u32, coherent: &[u8], noncoherent: &[u8], i: usize) -> u32
    requires { (length coherent.now ≡ 1152) × (length noncoherent.now ≡ 1152) × (level ≤ 2) × (i < 16 * (kind_of kind).last) }
    ensures { result ≡ trial_code (kind_of kind) (min level (kind_of kind).most) coherent.now noncoherent.now i }
{
    let place = place_at(kind, i / 2);
    if i % 2 == 0 {
        code_at(kind, level, coherent, place)
    } else {
        code_at(kind, level, noncoherent, place)
    }
}

// The codes of all places.
pub fn try_all(
    kind: MessageKind,
    level: u32,
    coherent: &[u8],
    noncoherent: &[u8],
    codes: &mut [u32],
)
    requires { (length coherent.now ≡ 1152) × (length noncoherent.now ≡ 1152) × (level ≤ 2) × (length codes.old ≡ 16 * (kind_of kind).last) }
    ensures { codes.new ≡ tabulate (16 * (kind_of kind).last) (trial_code (kind_of kind) (min level (kind_of kind).most) coherent.now noncoherent.now) }
{
    for (i, code) in codes.iter_mut().enumerate() {
        *code = trial_code(kind, level, coherent, noncoherent, i);
    }
}

// All places, by their numbers.
pub fn list_all(list: &mut [u16])
    requires { length list.old ≤ 696 }
    ensures { list.new ≡ tabulate (length list.old) (λ (k : ℕ). k) }
{
    for (k, number) in list.iter_mut().enumerate() {
        *number = k as u16;
    }
}
