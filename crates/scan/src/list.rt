// The list of the places that are let through where nothing is repaired.
ghost use Rattle.std.specs.Prelude.{◌≡◌, ◌*◌, ◌≤◌, length, take};
ghost use Rattle.refusals.specs.Refusals.{told};
ghost use Rattle.place.specs.All.{last_bit};
ghost use Rattle.scan.specs.Sieve.{kept};
ghost use Rattle.scan.specs.Exact.{exact, lead_of, exact_into};

use crate::marks::{any, gather, mark_exact};
use annex10::MessageKind;
use refusals::Refusal;

// The numbers of those of m bit offsets.
fn gather_exact(
    lead: usize,
    m: usize,
    coherent: &[u8],
    noncoherent: &[u8],
    crcs: &[u32],
    others: &[u32],
    marks: &mut [u8],
    places: &mut [u16],
) -> usize
    requires { (lead ≤ 1) × (m ≤ 87) × (length coherent.now ≡ 1152) × (length noncoherent.now ≡ 1152) × (length crcs.now ≡ 8 * m) × (length others.now ≡ 8 * m) × (length marks.old ≡ 8 * m) × (length places.old ≡ 8 * m) }
    ensures { (result ≤ 8 * m) × (result ≡ length (kept (exact lead coherent.now noncoherent.now crcs.now others.now) (8 * m))) × (take result places.new ≡ kept (exact lead coherent.now noncoherent.now crcs.now others.now) (8 * m)) }
{
    mark_exact(lead, coherent, noncoherent, crcs, others, marks);
    if any(marks) == 0 {
        return 0;
    }
    gather(m, marks, places)
}

// The list of those: N numbers are the places of m bit offsets.
#[tactic(auto, unfolding(crate::specs::Exact::exact_into))]
fn list_of<const N: usize>(
    lead: usize,
    m: usize,
    coherent: &[u8],
    noncoherent: &[u8],
    crcs: &[u32],
    others: &[u32],
    list: &mut [u16],
) -> Result<usize, Refusal>
    requires { (lead ≤ 1) × (m ≤ 87) × (N ≡ 8 * m) }
    ensures { (told result, list.new) ≡ exact_into lead N coherent.now noncoherent.now crcs.now others.now list.old }
{
    if coherent.len() != 1152 || noncoherent.len() != 1152 || crcs.len() != N || others.len() != N {
        return Err(Refusal::Input);
    }
    if list.len() != N {
        return Err(Refusal::Output);
    }
    let mut marks = [0u8; N];
    let mut places = [0u16; N];
    let count = gather_exact(
        lead,
        m,
        coherent,
        noncoherent,
        crcs,
        others,
        &mut marks,
        &mut places,
    );
    list[..count].copy_from_slice(&places[..count]);
    Ok(count)
}

// The places at which a slicer has a remainder of 0 behind a first bit of 1, for short messages a second bit of 1, by their numbers, in the
// order of the search: how many there are; behind them the list is as it was. Refused: 2 where the inputs are not 1,152, 1,152, 248, 248
// long, 3 where the list is not 248 long; for short messages 696.
pub fn list_exact(
    kind: MessageKind,
    coherent: &[u8],
    noncoherent: &[u8],
    crcs: &[u32],
    others: &[u32],
    list: &mut [u16],
) -> Result<usize, Refusal>
    ensures { (told result, list.new) ≡ exact_into (lead_of kind) (8 * last_bit kind) coherent.now noncoherent.now crcs.now others.now list.old }
{
    match kind {
        MessageKind::Short => list_of::<696>(1, 87, coherent, noncoherent, crcs, others, list),
        MessageKind::Long => list_of::<248>(0, 31, coherent, noncoherent, crcs, others, list),
    }
}
