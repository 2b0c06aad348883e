// Parts for a location, lent from what the caller lends. A part that is refused is empty; beside each part stands what refuses it.
#![tactic(auto)]

ghost use Rattle.std.specs.Prelude.{◌≡◌, ◌*◌, ◌-◌, cond, eqb, length};
ghost use Rattle.annex10.specs.Length.{message_bytes};
ghost use Rattle.refusals.specs.Refusals.{told, told_number};
ghost use Rattle.parts.specs.Part.{row_refusal, symbols_for, samples_for, streams_refusal, chosen, part_size, size_at, slicer_part};

use annex10::MessageKind;
use place::location::Location;
use place::{Place, Slicer};
use refusals::Refusal;

// So many items are lent.
fn check_length<T>(items: &[T], size: usize) -> Result<(), Refusal>
    ensures { told_number result ≡ cond (eqb (length items.now) size) 0 2 }
{
    if items.len() == size {
        Ok(())
    } else {
        Err(Refusal::Input)
    }
}

// The row of symbols of one clock phase: 288 symbols, two numbers each.
#[tactic(auto, unfolding(crate::specs::Part::row_refusal))]
pub fn check_symbols(kind: MessageKind, row: &[f32], location: Location) -> Result<(), Refusal>
    ensures { told_number result ≡ row_refusal 576 (message_bytes kind) row.now location }
{
    check_length(row, 576)?;
    location.check(kind)
}

// The symbols of a message, from its symbol start: 224, or 112.
#[tactic(auto, using(crate::proofs::Taken::row_taken, crate::proofs::Taken::front_of_rest, crate::proofs::Taken::front_long, annex10::proofs::Length::kind_small), unfolding(crate::specs::Part::symbols_for, crate::specs::Part::symbols_at))]
pub fn symbols_for_location(kind: MessageKind, row: &[f32], location: Location) -> &[f32]
    ensures { result.now ≡ symbols_for (message_bytes kind) row.now location }
{
    if check_symbols(kind, row, location).is_err() {
        return &[];
    }
    let place = location.place;
    let from = 2 * (2 * place.bit + place.symbol);
    &row[from..][..32 * kind.bytes()]
}

// The window: 1,155 samples, two numbers each.
#[tactic(auto, unfolding(crate::specs::Part::row_refusal))]
pub fn check_samples(kind: MessageKind, window: &[f32], location: Location) -> Result<(), Refusal>
    ensures { told_number result ≡ row_refusal 2310 (message_bytes kind) window.now location }
{
    check_length(window, 2310)?;
    location.check(kind)
}

// The samples of a message, from its sample start: 896, or 448.
#[tactic(auto, using(crate::proofs::Taken::row_taken, crate::proofs::Taken::front_of_rest, crate::proofs::Taken::front_long, annex10::proofs::Length::kind_small), unfolding(crate::specs::Part::samples_for, crate::specs::Part::samples_at))]
pub fn samples_for_location(kind: MessageKind, window: &[f32], location: Location) -> &[f32]
    ensures { result.now ≡ samples_for (message_bytes kind) window.now location }
{
    if check_samples(kind, window, location).is_err() {
        return &[];
    }
    let place = location.place;
    let from = 2 * (4 * (2 * place.bit + place.symbol) + place.phase);
    &window[from..][..128 * kind.bytes()]
}

// The streams of both slicers: 18 bytes each.
#[tactic(auto, unfolding(crate::specs::Part::streams_refusal))]
pub fn check_streams(
    kind: MessageKind,
    coherent: &[u8],
    noncoherent: &[u8],
    location: Location,
) -> Result<(), Refusal>
    ensures { told_number result ≡ streams_refusal (message_bytes kind) coherent.now noncoherent.now location }
{
    check_length(coherent, 18)?;
    check_length(noncoherent, 18)?;
    location.check(kind)
}

// How many bytes hold the bits of a message from a bit offset on.
#[tactic(auto, unfolding(crate::specs::Part::part_size))]
fn bytes_from(kind: MessageKind, bit: usize) -> usize
    ensures { result ≡ part_size (message_bytes kind) bit }
{
    if bit % 8 == 0 {
        kind.bytes()
    } else {
        kind.bytes() + 1
    }
}

// The last bit offset from which a message ends within a stream.
fn bit_max(kind: MessageKind) -> usize
    ensures { result ≡ 144 - 8 * message_bytes kind }
{
    match kind {
        MessageKind::Short => Place::SHORT_BIT_MAX,
        MessageKind::Long => Place::BIT_MAX,
    }
}

// The same for others. Refused: 7 a bit offset from which the message would end behind the stream.
#[tactic(auto, unfolding(crate::specs::Part::size_at))]
pub fn part_size(kind: MessageKind, bit: usize) -> Result<usize, Refusal>
    ensures { told result ≡ size_at (message_bytes kind) bit }
{
    if bit > bit_max(kind) {
        return Err(Refusal::Place);
    }
    Ok(bytes_from(kind, bit))
}

// The stream that the slicer names.
fn chosen<'a>(slicer: Slicer, coherent: &'a [u8], noncoherent: &'a [u8]) -> &'a [u8]
    ensures { result.now ≡ chosen slicer coherent.now noncoherent.now }
{
    match slicer {
        Slicer::Coherent => coherent,
        Slicer::Noncoherent => noncoherent,
    }
}

// The bytes of the named slicer's stream that hold the bits of a message.
#[tactic(auto, using(crate::proofs::Taken::part_room, crate::proofs::Taken::front_long, annex10::proofs::Length::kind_small), unfolding(crate::specs::Part::slicer_part))]
pub fn slicer_part<'a>(
    kind: MessageKind,
    coherent: &'a [u8],
    noncoherent: &'a [u8],
    location: Location,
) -> &'a [u8]
    ensures { result.now ≡ slicer_part (message_bytes kind) coherent.now noncoherent.now location }
{
    if check_streams(kind, coherent, noncoherent, location).is_err() {
        return &[];
    }
    let bit = location.place.bit;
    let stream = chosen(location.slicer, coherent, noncoherent);
    &stream[bit / 8..][..bytes_from(kind, bit)]
}
