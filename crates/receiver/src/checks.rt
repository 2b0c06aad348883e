// What the calls refuse: the first that applies, in the order of its numbers.
ghost use Rattle.std.specs.Prelude.{◌≡◌};
ghost use Rattle.refusals.specs.Refusals.{told_number};
ghost use Rattle.search.specs.Answers.{window_number, settings_number, index_number, place_number, searched_number, or_number};
ghost use Rattle.receiver.specs.Inner.{kind_of};

use crate::kinds::{check_location, is_listed};
use annex10::MessageKind;
use choice::settings::{check_index, check_settings};
use place::Place;
use place::location::Location;
use refusals::Refusal;
use search::Settings;

// A window has 2,310 numbers.
#[tactic(auto, unfolding(search::specs::Answers::window_number))]
fn check_window(samples: &[f32]) -> Result<(), Refusal>
    ensures { told_number result ≡ window_number samples.now }
{
    if samples.len() == 2310 {
        Ok(())
    } else {
        Err(Refusal::Input)
    }
}

// A place is one of those that are searched.
#[tactic(auto, unfolding(search::specs::Answers::place_number))]
fn check_place(kind: MessageKind, place: Place) -> Result<(), Refusal>
    ensures { told_number result ≡ place_number (kind_of kind) place }
{
    if is_listed(kind, place) {
        Ok(())
    } else {
        Err(Refusal::Place)
    }
}

// A location lies at such a place, and its record is one that is taken.
fn check_searched(kind: MessageKind, location: Location) -> Result<(), Refusal>
    ensures { told_number result ≡ searched_number (kind_of kind) location }
{
    check_place(kind, location.place)?;
    check_location(kind, location)
}

pub fn check_read(
    kind: MessageKind,
    samples: &[f32],
    s: Settings,
    place: Place,
) -> Result<(), Refusal>
    ensures { told_number result ≡ or_number (window_number samples.now) (or_number (settings_number s) (place_number (kind_of kind) place)) }
{
    check_window(samples)?;
    check_settings(s)?;
    check_place(kind, place)
}

pub fn check_best(samples: &[f32], s: Settings) -> Result<(), Refusal>
    ensures { told_number result ≡ or_number (window_number samples.now) (settings_number s) }
{
    check_window(samples)?;
    check_settings(s)
}

pub fn check_time(
    kind: MessageKind,
    samples: &[f32],
    location: Location,
    index: u64,
) -> Result<(), Refusal>
    ensures { told_number result ≡ or_number (window_number samples.now) (or_number (index_number index) (searched_number (kind_of kind) location)) }
{
    check_window(samples)?;
    check_index(index)?;
    check_searched(kind, location)
}

pub fn check_decode(samples: &[f32], s: Settings, index: u64) -> Result<(), Refusal>
    ensures { told_number result ≡ or_number (window_number samples.now) (or_number (settings_number s) (index_number index)) }
{
    check_window(samples)?;
    check_settings(s)?;
    check_index(index)
}
