// The search over the places that were let through.
ghost use Rattle.std.specs.Prelude.{◌≡◌, true, ◌-◌, ◌*◌, ◌<◌, min, length, get_or, Some};
ghost use Rattle.kernels.specs.Symbols.{symbols_of};
ghost use Rattle.place.specs.Step.{sample_start};
ghost use Rattle.place.specs.All.{listed, place_at};
ghost use Rattle.place.specs.Agrees.{location_number};
ghost use Rattle.search.specs.Choice.{candidate_at};
ghost use Rattle.search.specs.Seen.{seen};
ghost use Rattle.search.specs.Window.{unmarked};
ghost use Rattle.search.specs.Answers.{settings_number};
ghost use Rattle.search.specs.declared.Candidate.{Candidate};
ghost use Rattle.receiver.specs.Inner.{Finds, kind_of, found_by, held_of, takes_over, chosen_of, counted_held};
ghost use Rattle.receiver.specs.InnerSearches.{Lists, best_among};

use crate::candidate::read_lane;
use crate::codes::bit_errors_by;
use crate::kinds::numbered;
use crate::lent::{Places, Scan};
use crate::phase::row_of;
use crate::undecided::counted;
use annex10::{MessageKind, repairs_of};
use choice::best::displaces;
use place::Place;
use search::{Candidate, Settings};

// The surviving reading of a place. Its row of symbols is lent; c and d are the codes of what clears its two messages. Undecided bits are not
// counted.
pub fn read_at(
    scan: &Scan,
    symbols: &[f32],
    c: u32,
    d: u32,
    s: Settings,
    place: Place,
) -> Option<Candidate>
    requires { (symbols.now ≡ symbols_of scan.now.samples.now) × (listed (kind_of scan.now.kind).last place ≡ true) × (settings_number s ≡ 0) × Finds (kind_of scan.now.kind) (min s.level (kind_of scan.now.kind).most) (get_or scan.now.crcs.now (sample_start place - 8) 0) (found_by (get_or scan.now.crcs.now (sample_start place - 8) 0) c) × Finds (kind_of scan.now.kind) (min s.level (kind_of scan.now.kind).most) (get_or scan.now.others.now (sample_start place - 8) 0) (found_by (get_or scan.now.others.now (sample_start place - 8) 0) d) }
    ensures { result ≡ held_of (kind_of scan.now.kind) (candidate_at (kind_of scan.now.kind) s (unmarked (seen (kind_of scan.now.kind) scan.now.samples.now)) place) }
{
    let lane = 4 * place.symbol + place.phase;
    let i = 8 * place.bit + lane - 8;
    let crc = scan.crcs[i];
    let other = scan.others[i];
    read_lane(
        scan.kind,
        scan.samples,
        row_of(symbols, place.phase),
        scan.coherent,
        scan.noncoherent,
        lane,
        s,
        place,
        bit_errors_by(crc, c),
        bit_errors_by(other, d),
        crc != other,
    )
}

// One of the places that are searched, by its number.
pub fn place_at(kind: MessageKind, k: usize) -> Place
    requires { k < 8 * (kind_of kind).last }
    ensures { result ≡ place_at k }
{
    numbered(kind, k).unwrap_or(Place::FIRST)
}

// Whether a newcomer takes over from what is held.
#[tactic(auto, unfolding(search::specs::Choice::beats))]
fn takes_over(held: Option<Candidate>, new: Candidate) -> bool
    ensures { result ≡ takes_over held new }
{
    match held {
        None => true,
        Some(held) => displaces(
            repairs_of(new.location.repairs),
            new.cn0,
            repairs_of(held.location.repairs),
            held.cn0,
        ),
    }
}

// The better of what is held and a newcomer, whose undecided bits are counted only where it takes over.
#[tactic(auto, using(crate::proofs::Counted::same_taken))]
fn hold(
    kind: MessageKind,
    symbols: &[f32],
    held: Option<Candidate>,
    new: Option<Candidate>,
) -> Option<Candidate>
    requires { (length symbols.now ≡ 2304) × ((c : Candidate) → new ≡ Some c → location_number (kind_of kind).bytes c.location ≡ 0) }
    ensures { result ≡ chosen_of held (counted_held (kind_of kind) symbols.now new) }
{
    match new {
        Some(new) if takes_over(held, new) => Some(counted(kind, symbols, new)),
        _ => held,
    }
}

// The best of the places in a list.
pub fn find(scan: &Scan, symbols: &[f32], places: &Places, s: Settings) -> Option<Candidate>
    requires { (symbols.now ≡ symbols_of scan.now.samples.now) × Lists scan.now s places.now × (settings_number s ≡ 0) }
    ensures { result ≡ best_among scan.now s places.now }
{
    let mut held = None;
    for q in 0..places.count {
        let place = place_at(scan.kind, usize::from(places.numbers[q]));
        let (c, d) = (places.codes[2 * q], places.codes[2 * q + 1]);
        let new = read_at(scan, symbols, c, d, s, place);
        held = hold(scan.kind, symbols, held, new);
    }
    held
}
