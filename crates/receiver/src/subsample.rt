// When a message came, from its powers at its place and around it.
ghost use Rattle.std.specs.Prelude.{◌≡◌, ◌+◌, ◌-◌, ◌*◌, ◌<◌, length, take, drop};
ghost use Rattle.place.specs.Step.{sample_start, last_symbol};
ghost use Rattle.place.specs.Agrees.{location_number};
ghost use Rattle.parts.specs.Part.{symbols_at};
ghost use Rattle.search.specs.When.{started_at, timing_at};
ghost use Rattle.receiver.specs.Inner.{kind_of, Searched, power_in, around_in, timed_by, seen_in};

use crate::kinds::{step_back, step_on, symbols_part};
use crate::phase::row_of;
use annex10::MessageKind;
use math::parabolic_interpolation;
use place::location::Location;
use powers::around::{Around, powers_around};
use powers::power::postdecode_power;
use timing::{Offset, Timing, subsample_timing};

// The symbols of a location, from those of all clock phases.
fn symbols_at(kind: MessageKind, symbols: &[f32], location: Location) -> &[f32]
    requires { (length symbols.now ≡ 2304) × (location_number (kind_of kind).bytes location ≡ 0) }
    ensures { result.now ≡ symbols_at (kind_of kind).bytes (take 576 (drop (576 * location.place.phase) symbols.now)) location.place }
{
    symbols_part(kind, row_of(symbols, location.place.phase), location)
}

// The power of a message at a location.
pub fn power_at(kind: MessageKind, symbols: &[f32], location: Location, message: &[u8]) -> f32
    requires { (length symbols.now ≡ 2304) × (location_number (kind_of kind).bytes location ≡ 0) × (length message.now ≡ (kind_of kind).bytes) }
    ensures { result ≡ power_in (kind_of kind) symbols.now location.place message.now }
{
    postdecode_power(symbols_at(kind, symbols, location), message).unwrap_or(0.0)
}

fn earlier(kind: MessageKind, location: Location) -> Location
    requires { (location_number (kind_of kind).bytes location ≡ 0) × (0 < sample_start location.place) }
    ensures { (result ≡ started_at location (sample_start location.place - 1)) × (location_number (kind_of kind).bytes result ≡ 0) }
{
    step_back(kind, location).unwrap_or(location)
}

fn later(kind: MessageKind, location: Location) -> Location
    requires { (location_number (kind_of kind).bytes location ≡ 0) × (sample_start location.place < 4 * last_symbol (kind_of kind).bytes + 3) }
    ensures { (result ≡ started_at location (sample_start location.place + 1)) × (location_number (kind_of kind).bytes result ≡ 0) }
{
    step_on(kind, location).unwrap_or(location)
}

// At its neighbours: one and two clock phases either way.
fn around(kind: MessageKind, symbols: &[f32], location: Location, message: &[u8]) -> Around
    requires { (length symbols.now ≡ 2304) × Searched (kind_of kind) location × (length message.now ≡ (kind_of kind).bytes) }
    ensures { result ≡ around_in (kind_of kind) symbols.now message.now (sample_start location.place) }
{
    let before = earlier(kind, location);
    let after = later(kind, location);
    powers_around(
        symbols_at(kind, symbols, earlier(kind, before)),
        symbols_at(kind, symbols, before),
        symbols_at(kind, symbols, after),
        symbols_at(kind, symbols, later(kind, after)),
        message,
    )
    .unwrap_or(Around {
        earliest: 0.0,
        earlier: 0.0,
        later: 0.0,
        latest: 0.0,
    })
}

// A neighbour takes over only with strictly more power, the earlier one before the later one; the parabola lies about what is held then.
#[tactic(auto, unfolding(crate::specs::Inner::timed_by))]
fn time_by(power: f32, a: Around) -> Timing
    ensures { result ≡ timed_by power a }
{
    let held = if a.earlier > power { a.earlier } else { power };
    if a.later > held {
        subsample_timing(
            parabolic_interpolation(power, a.later, a.latest),
            Offset::Later,
        )
    } else if a.earlier > power {
        subsample_timing(
            parabolic_interpolation(a.earliest, a.earlier, power),
            Offset::Earlier,
        )
    } else {
        subsample_timing(
            parabolic_interpolation(a.earlier, power, a.later),
            Offset::Same,
        )
    }
}

// The moves and the fraction of a message at one of the places that are searched, with its power there.
pub fn subsample(
    kind: MessageKind,
    symbols: &[f32],
    location: Location,
    message: &[u8],
    power: f32,
) -> Timing
    requires { (length symbols.now ≡ 2304) × Searched (kind_of kind) location × (length message.now ≡ (kind_of kind).bytes) × (power ≡ power_in (kind_of kind) symbols.now location.place message.now) }
    ensures { result ≡ timing_at (seen_in (kind_of kind) symbols.now) message.now location }
{
    time_by(power, around(kind, symbols, location, message))
}
