// Bits of symbols: each bit compares two symbols that follow one another.
// All bits of a row are found in one loop and joined to bytes in others: such loops are done on many numbers at once.
ghost use Rattle.std.specs.Prelude.{◌≡◌, ◌*◌, ◌<◌, ◌≤◌, length};
ghost use Rattle.refusals.specs.Refusals.{told_number};
ghost use Rattle.slicing.specs.Slices.{streams_of, marks_of, demodulated};
ghost use Rattle.slicing.specs.Inner.{measures_of, bits_in_turn, marks_in_turn, apart_of, joined, bytes_of};

use crate::measure::{bit_of_pair, mark_of_pair, measure_at};
use place::Slicer;
use refusals::Refusal;

// What is compared, each number found once.
fn find_measures(row: &[f32], slicer: Slicer, measures: &mut [f32])
    requires { (length row.now ≡ 576) × (length measures.old ≡ 288) }
    ensures { measures.new ≡ measures_of slicer row.now }
{
    for (i, measure) in measures.iter_mut().enumerate() {
        *measure = measure_at(slicer, row, i);
    }
}

// The bits of both streams in turn, and their marks. The last symbol has none after it: its bit was never decided.
fn compare(measures: &[f32], bits: &mut [u8], marks: &mut [u8])
    requires { (length measures.now ≡ 288) × (length bits.old ≡ 288) × (length marks.old ≡ 288) }
    ensures { (bits.new ≡ bits_in_turn measures.now) × (marks.new ≡ marks_in_turn measures.now) }
{
    // By index: two arrays are written from neighbours in a third.
    for i in 0..287 {
        let first = measures[i];
        let second = measures[i + 1];
        bits[i] = bit_of_pair(first, second);
        marks[i] = mark_of_pair(first, second);
    }
    bits[287] = 0;
    marks[287] = 1;
}

// The bits of stream 0, then those of stream 1.
fn take_apart(bits: &[u8], apart: &mut [u8])
    requires { (length bits.now ≡ 288) × (length apart.old ≡ 288) }
    ensures { apart.new ≡ apart_of bits.now }
{
    // By index: a pair goes to two places far apart.
    for i in 0..144 {
        apart[i] = bits[2 * i];
        apart[144 + i] = bits[2 * i + 1];
    }
}

// Two numbers of so many bits side by side, the first higher.
fn join(halves: &[u8], width: usize, wholes: &mut [u8])
    requires { (length halves.now ≡ 2 * length wholes.old) × (length wholes.old ≤ 144) × (width < 8) }
    ensures { wholes.new ≡ joined (length wholes.old) width halves.now }
{
    for (i, whole) in wholes.iter_mut().enumerate() {
        *whole = (halves[2 * i] << width) | halves[2 * i + 1];
    }
}

// The bytes of both streams: bits are joined to pairs, to fours, to bytes.
#[tactic(auto, using(crate::proofs::Joining::bytes_made))]
fn pack(bits: &[u8], out: &mut [u8])
    requires { (length bits.now ≡ 288) × (length out.old ≡ 36) }
    ensures { out.new ≡ bytes_of bits.now }
{
    let mut apart = [0u8; 288];
    let mut pairs = [0u8; 144];
    let mut fours = [0u8; 72];
    take_apart(bits, &mut apart);
    join(&apart, 1, &mut pairs);
    join(&pairs, 2, &mut fours);
    join(&fours, 4, out);
}

// Both streams of one slicer, and their marks.
#[tactic(auto, using(crate::proofs::Joining::streams_are, crate::proofs::Joining::marks_are))]
fn slice_streams(row: &[f32], slicer: Slicer, out: &mut [u8], out_marks: &mut [u8])
    requires { (length row.now ≡ 576) × (length out.old ≡ 36) × (length out_marks.old ≡ 36) }
    ensures { (out.new ≡ streams_of slicer row.now) × (out_marks.new ≡ marks_of slicer row.now) }
{
    let mut measures = [0.0f32; 288];
    let mut bits = [0u8; 288];
    let mut marks = [0u8; 288];
    find_measures(row, slicer, &mut measures);
    compare(&measures, &mut bits, &mut marks);
    pack(&bits, out);
    pack(&marks, out_marks);
}

// Both streams of both slicers, of the symbols of one clock phase, with the marks of their undecided bits. Refused where a row has not
// 576 numbers or an output not 36 bytes; then nothing is written.
#[tactic(auto, unfolding(crate::specs::Slices::demodulated, crate::specs::Slices::slicing_number))]
pub fn demodulate(
    row: &[f32],
    coherent: &mut [u8],
    noncoherent: &mut [u8],
    coherent_marks: &mut [u8],
    noncoherent_marks: &mut [u8],
) -> Result<(), Refusal>
    ensures { (told_number result, coherent.new, noncoherent.new, coherent_marks.new, noncoherent_marks.new) ≡ demodulated row.now (coherent.old, noncoherent.old, coherent_marks.old, noncoherent_marks.old) }
{
    if row.len() != 576 {
        return Err(Refusal::Input);
    }
    if coherent.len() != 36
        || noncoherent.len() != 36
        || coherent_marks.len() != 36
        || noncoherent_marks.len() != 36
    {
        return Err(Refusal::Output);
    }
    slice_streams(row, Slicer::Coherent, coherent, coherent_marks);
    slice_streams(row, Slicer::Noncoherent, noncoherent, noncoherent_marks);
    Ok(())
}
