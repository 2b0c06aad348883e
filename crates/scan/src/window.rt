// From the samples of a window to its bits and to the remainders of its messages.
ghost use Rattle.std.specs.Prelude.{◌≡◌, ◌*◌, length};
ghost use Rattle.annex10.specs.Length.{message_bytes};
ghost use Rattle.refusals.specs.Refusals.{told_number};
ghost use Rattle.kernels.specs.Symbols.{sums_of};
ghost use Rattle.place.specs.All.{last_bit};
ghost use Rattle.place.specs.declared.Slicer.TheVariants.{Coherent, Noncoherent};
ghost use Rattle.scan.specs.Flat.{bits_from, crcs_in, room_for, scanned, scanned_both};
ghost use Rattle.scan.specs.Inner.{Digits, leaving_power};

use crate::bits::compare;
use crate::crcs::roll_rows;
use crate::first::first_row;
use crate::rows::find_rows;
use annex10::MessageKind;
use kernels::symbols::running_sums;
use place::Place;
use refusals::Refusal;

// How many starting samples are scanned: from 8 on as many as places are searched.
fn starts(kind: MessageKind) -> usize
    ensures { result ≡ 8 * last_bit kind }
{
    match kind {
        MessageKind::Short => Place::SHORT_COUNT,
        MessageKind::Long => Place::COUNT,
    }
}

// With it a bit leaves a message: x^80 and x^136 modulo the generator.
#[tactic(auto, unfolding(crate::specs::Inner::leaving_power))]
fn leaving_power(kind: MessageKind) -> u32
    ensures { result ≡ leaving_power (message_bytes kind) }
{
    match kind {
        MessageKind::Short => 0x7eda22,
        MessageKind::Long => 0x2d833c,
    }
}

// The sums, and the bits of both slicers, one for each sample.
fn find_bits(samples: &[f32], sums: &mut [f32], coherent: &mut [u8], noncoherent: &mut [u8])
    requires { (length samples.now ≡ 2310) × (length sums.old ≡ 2304) × (length coherent.old ≡ 1152) × (length noncoherent.old ≡ 1152) }
    ensures { (sums.new ≡ sums_of samples.now) × (coherent.new ≡ bits_from Coherent samples.now) × (noncoherent.new ≡ bits_from Noncoherent samples.now) }
{
    let mut reals = [0.0f32; 1152];
    let mut norms = [0.0f32; 1152];
    let _ = running_sums(samples, sums);
    find_rows(sums, &mut reals, &mut norms);
    compare(&reals, coherent);
    compare(&norms, noncoherent);
}

// The remainders of the messages of each slicer.
#[tactic(auto, using(annex10::proofs::Length::kind_small, crate::proofs::Rolled::span))]
fn find_crcs(
    kind: MessageKind,
    coherent: &[u8],
    noncoherent: &[u8],
    crcs: &mut [u32],
    others: &mut [u32],
)
    requires { Digits coherent.now × Digits noncoherent.now × (length crcs.old ≡ 8 * last_bit kind) × (length others.old ≡ 8 * last_bit kind) }
    ensures { (crcs.new ≡ crcs_in (message_bytes kind) coherent.now (8 * last_bit kind)) × (others.new ≡ crcs_in (message_bytes kind) noncoherent.now (8 * last_bit kind)) }
{
    first_row(kind.bytes(), coherent, crcs);
    first_row(kind.bytes(), noncoherent, others);
    roll_rows(
        kind.bytes(),
        starts(kind),
        leaving_power(kind),
        coherent,
        noncoherent,
        crcs,
        others,
    );
}

// The memories of a scan have their lengths.
#[tactic(auto, unfolding(crate::specs::Flat::room_for))]
fn has_room(
    kind: MessageKind,
    sums: &[f32],
    coherent: &[u8],
    noncoherent: &[u8],
    crcs: &[u32],
    others: &[u32],
) -> bool
    ensures { result ≡ room_for (8 * last_bit kind) sums.now coherent.now noncoherent.now crcs.now others.now }
{
    sums.len() == 2304
        && coherent.len() == 1152
        && noncoherent.len() == 1152
        && crcs.len() == starts(kind)
        && others.len() == starts(kind)
}

// The sums of four samples and the bits of both slicers by starting sample, and the remainders of the messages that start with samples 8
// to 255, for short ones 8 to 703. Refused: 2 where the samples are not 2,310 numbers, 3 where a memory is not 2,304, 1,152, 1,152, 248,
// 248 long, for short ones 2,304, 1,152, 1,152, 696, 696.
#[tactic(auto, using(crate::proofs::Comparing::room_of, crate::proofs::Starting::digits_made), unfolding(crate::specs::Flat::scanned))]
pub fn scan(
    kind: MessageKind,
    samples: &[f32],
    sums: &mut [f32],
    coherent: &mut [u8],
    noncoherent: &mut [u8],
    crcs: &mut [u32],
    others: &mut [u32],
) -> Result<(), Refusal>
    ensures { (told_number result, sums.new, coherent.new, noncoherent.new, crcs.new, others.new) ≡ scanned (message_bytes kind) (8 * last_bit kind) samples.now sums.old coherent.old noncoherent.old crcs.old others.old }
{
    if samples.len() != 2310 {
        return Err(Refusal::Input);
    }
    if !has_room(kind, sums, coherent, noncoherent, crcs, others) {
        return Err(Refusal::Output);
    }
    find_bits(samples, sums, coherent, noncoherent);
    find_crcs(kind, coherent, noncoherent, crcs, others);
    Ok(())
}

// Both at once: the sums and the bits are made once. Refused as by each of the two.
#[tactic(auto, using(crate::proofs::Comparing::room_of, crate::proofs::Starting::digits_made), unfolding(crate::specs::Flat::scanned_both))]
pub fn scan_both(
    samples: &[f32],
    sums: &mut [f32],
    coherent: &mut [u8],
    noncoherent: &mut [u8],
    crcs: &mut [u32],
    others: &mut [u32],
    short_crcs: &mut [u32],
    short_others: &mut [u32],
) -> Result<(), Refusal>
    ensures { (told_number result, sums.new, coherent.new, noncoherent.new, crcs.new, others.new, short_crcs.new, short_others.new) ≡ scanned_both samples.now sums.old coherent.old noncoherent.old crcs.old others.old short_crcs.old short_others.old }
{
    if samples.len() != 2310 {
        return Err(Refusal::Input);
    }
    if !has_room(MessageKind::Long, sums, coherent, noncoherent, crcs, others)
        || short_crcs.len() != 696
        || short_others.len() != 696
    {
        return Err(Refusal::Output);
    }
    find_bits(samples, sums, coherent, noncoherent);
    find_crcs(MessageKind::Long, coherent, noncoherent, crcs, others);
    find_crcs(
        MessageKind::Short,
        coherent,
        noncoherent,
        short_crcs,
        short_others,
    );
    Ok(())
}
