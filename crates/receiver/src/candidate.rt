// The surviving reading of a place, from the row of its clock phase and the lane in which it lies.
ghost use Rattle.std.specs.Prelude.{◌≡◌, true, cond, ◌≤◌, min, length, Some, None};
ghost use Rattle.annex10.specs.Repair.{count};
ghost use Rattle.place.specs.Step.{within};
ghost use Rattle.place.specs.Agrees.{location_number};
ghost use Rattle.streams.specs.Streams.{message_at};
ghost use Rattle.streams.specs.Distances.{differing};
ghost use Rattle.scan.specs.Lanes.{lane_bytes};
ghost use Rattle.search.specs.declared.Tried.TheVariants.{Pass};
ghost use Rattle.search.specs.Choice.{candidate, dropped, survivor, candidate_at};
ghost use Rattle.search.specs.Kinds.{long};
ghost use Rattle.search.specs.Answers.{settings_number};
ghost use Rattle.receiver.specs.Inner.{Streams, Lane, Known, kind_of, seen_at, wide, held_of};

use crate::kinds::{bytes_of, level_of};
use crate::lanes::{compared_lane, first_of, named_lane};
use crate::message::message_from_location;
use crate::six::try_six;
use crate::weigh::both_powers;
use annex10::{Found, MessageKind, repairs_of};
use choice::filter::filter_out_decode_candidate;
use cn0::estimate_cn0;
use place::Place;
use place::location::Location;
use search::{Candidate, Settings, Tried};
use streams::distance::compute_hamming_distance;

fn distance_at(coherent: &[u8], noncoherent: &[u8], bit: usize) -> u32
    requires { Streams long coherent.now noncoherent.now bit }
    ensures { result ≡ differing (message_at coherent.now 14 bit) (message_at noncoherent.now 14 bit) 112 }
{
    compute_hamming_distance(coherent, noncoherent, bit).unwrap_or(0)
}

// A reading with its message, power and cn0. Its undecided bits are counted when it is held.
fn candidate_of<'a>(
    kind: MessageKind,
    samples: &[f32],
    row: &[f32],
    coherent: &'a [u8],
    noncoherent: &'a [u8],
    location: Location,
) -> Candidate
    requires { (length samples.now ≡ 2310) × (length row.now ≡ 576) × Streams (kind_of kind) coherent.now noncoherent.now location.place.bit × (location_number (kind_of kind).bytes location ≡ 0) }
    ensures { result ≡ wide (kind_of kind) (candidate (seen_at (kind_of kind) samples.now row.now coherent.now noncoherent.now) location) }
{
    let message = message_from_location(kind, coherent, noncoherent, location);
    let powers = both_powers(kind, samples, row, location, &message[..bytes_of(kind)]);
    Candidate {
        location,
        message,
        prompt: powers.prompt,
        cn0: estimate_cn0(powers.prompt, powers.noise),
        undecided: 0,
    }
}

fn is_dropped(s: Settings, differing: u32, c: Candidate) -> bool
    requires { (settings_number s ≡ 0) × (location_number 14 c.location ≡ 0) }
    ensures { result ≡ dropped s differing c }
{
    filter_out_decode_candidate(s, differing, c).unwrap_or(false)
}

// The slicers' distance is asked for only where it can matter: only long messages are repaired twice.
#[tactic(auto, using(choice::proofs::Filtering::not_two))]
fn survives(s: Settings, coherent: &[u8], noncoherent: &[u8], c: Candidate) -> Option<Candidate>
    requires { (count c.location.repairs ≡ 2 → Streams long coherent.now noncoherent.now c.location.place.bit × (location_number 14 c.location ≡ 0)) × (settings_number s ≡ 0) }
    ensures { result ≡ cond (dropped s (differing (message_at coherent.now 14 c.location.place.bit) (message_at noncoherent.now 14 c.location.place.bit) 112) c) None (Some c) }
{
    let twice = repairs_of(c.location.repairs) == 2;
    if twice
        && is_dropped(
            s,
            distance_at(coherent, noncoherent, c.location.place.bit),
            c,
        )
    {
        None
    } else {
        Some(c)
    }
}

// What survives of a trial that passed. Only now streams are made, and only those that are looked at.
fn read_location(
    kind: MessageKind,
    samples: &[f32],
    row: &[f32],
    coherent: &[u8],
    noncoherent: &[u8],
    lane: usize,
    s: Settings,
    location: Location,
) -> Option<Candidate>
    requires { (length samples.now ≡ 2310) × (length row.now ≡ 576) × Lane (kind_of kind) coherent.now noncoherent.now lane location.place.bit × (settings_number s ≡ 0) × (location_number (kind_of kind).bytes location ≡ 0) × (count location.repairs ≤ min s.level (kind_of kind).most) }
    ensures { result ≡ held_of (kind_of kind) (survivor s (seen_at (kind_of kind) samples.now row.now (lane_bytes coherent.now lane) (lane_bytes noncoherent.now lane)) (Pass location)) }
{
    let named = named_lane(location, coherent, noncoherent, lane);
    let compared = compared_lane(location, named, coherent, lane);
    survives(
        s,
        &compared,
        &named,
        candidate_of(kind, samples, row, &compared, &named, location),
    )
}

// The surviving reading of a place: c and d are what clears its two messages, apart whether their remainders differ. The trials ask for no more
// than the first bytes of the two.
pub fn read_lane(
    kind: MessageKind,
    samples: &[f32],
    row: &[f32],
    coherent: &[u8],
    noncoherent: &[u8],
    lane: usize,
    s: Settings,
    place: Place,
    c: Found,
    d: Found,
    apart: bool,
) -> Option<Candidate>
    requires { (length samples.now ≡ 2310) × (length row.now ≡ 576) × Lane (kind_of kind) coherent.now noncoherent.now lane place.bit × (within (kind_of kind).bytes place ≡ true) × (settings_number s ≡ 0) × Known (kind_of kind) (min s.level (kind_of kind).most) (lane_bytes coherent.now lane) (lane_bytes noncoherent.now lane) place.bit c d apart }
    ensures { result ≡ held_of (kind_of kind) (candidate_at (kind_of kind) s (seen_at (kind_of kind) samples.now row.now (lane_bytes coherent.now lane) (lane_bytes noncoherent.now lane)) place) }
{
    let level = level_of(kind, s.level);
    let start = 8 * place.bit + lane;
    let first = first_of(coherent, start);
    let second = first_of(noncoherent, start);
    match try_six(kind, level, first, second, place, c, d, apart) {
        Tried::Pass(location) => read_location(
            kind,
            samples,
            row,
            coherent,
            noncoherent,
            lane,
            s,
            location,
        ),
        Tried::Fail => None,
    }
}
