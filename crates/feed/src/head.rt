// What is done with the numbers before the samples, each checked as it is met.
ghost use Rattle.std.specs.Prelude.{◌≡◌, cond, Ok, Err};
ghost use Rattle.std.specs.Float.{binary32};
ghost use Rattle.std.specs.Float.Ieee.{of_bits};
ghost use Rattle.std.specs.Float.Ieee.Scale.{finite};
ghost use Rattle.feed.specs.Machine.{says, told_of, number_fed, index_fed};
ghost use Rattle.feed.specs.Inner.{settled};

use crate::moves::{index_stage, samples_stage, silent};
use crate::{Fed, Field, Said, Stage, State};
use choice::settings::check_index;
use refusals::Refusal;
use search::Settings;
use words::float::float_of;

// The next number, with other settings.
fn told(field: Field, settings: Settings, s: State) -> Fed
    ensures { result ≡ says Said.Nothing (told_of (Stage.Number field) settings s) }
{
    silent(State {
        stage: Stage::Number(field),
        settings,
        ..s
    })
}

#[tactic(auto, unfolding(crate::specs::Machine::provided))]
fn fed_settings_count(s: State, n: u32) -> Result<Fed, Refusal>
    ensures { settled result ≡ number_fed Field.SettingsCount s s.settings n }
{
    if n != 4 {
        return Err(Refusal::Malformed);
    }
    Ok(told(Field::Level, s.settings, s))
}

#[tactic(auto, unfolding(crate::specs::Machine::provided))]
fn fed_level(s: State, n: u32) -> Result<Fed, Refusal>
    ensures { settled result ≡ number_fed Field.Level s s.settings n }
{
    if n > 2 {
        return Err(Refusal::Level);
    }
    let settings = Settings {
        level: n,
        ..s.settings
    };
    Ok(told(Field::Threshold, settings, s))
}

// A threshold has to be finite.
#[tactic(auto, using(math::proofs::Finite::finite_is))]
fn threshold_of(n: u32) -> Result<f32, Refusal>
    ensures { let x = of_bits binary32 n in result ≡ cond (finite x) (Ok x) (Err Refusal.Threshold) }
{
    let x = float_of(n);
    if x.is_finite() {
        Ok(x)
    } else {
        Err(Refusal::Threshold)
    }
}

#[tactic(auto, unfolding(crate::specs::Machine::provided))]
fn fed_threshold(s: State, n: u32) -> Result<Fed, Refusal>
    ensures { settled result ≡ number_fed Field.Threshold s s.settings n }
{
    let settings = Settings {
        threshold: threshold_of(n)?,
        ..s.settings
    };
    Ok(told(Field::Second, settings, s))
}

#[tactic(auto, unfolding(crate::specs::Machine::provided))]
fn fed_second(s: State, n: u32) -> Result<Fed, Refusal>
    ensures { settled result ≡ number_fed Field.Second s s.settings n }
{
    let settings = Settings {
        second: threshold_of(n)?,
        ..s.settings
    };
    Ok(told(Field::Distance, settings, s))
}

fn fed_distance(s: State, n: u32) -> Fed
    ensures { result ≡ number_fed Field.Distance s s.settings n }
{
    let settings = Settings {
        distance: n,
        ..s.settings
    };
    told(Field::WindowCount, settings, s)
}

#[tactic(auto, unfolding(crate::specs::Machine::provided))]
fn fed_window_count(s: State, n: u32) -> Result<Fed, Refusal>
    ensures { settled result ≡ number_fed Field.WindowCount s s.settings n }
{
    if n > 64 {
        return Err(Refusal::Malformed);
    }
    Ok(silent(State {
        stage: index_stage(0, n),
        windows: n,
        done: 0,
        ..s
    }))
}

#[tactic(auto, unfolding(crate::specs::Machine::provided))]
fn fed_sample_count(s: State, n: u32) -> Result<Fed, Refusal>
    ensures { settled result ≡ number_fed Field.SampleCount s s.settings n }
{
    if u64::from(n) != 2310 * u64::from(s.windows) {
        return Err(Refusal::Malformed);
    }
    Ok(Fed {
        state: State {
            stage: samples_stage(0, s.windows),
            done: 0,
            ..s
        },
        said: Said::Head(s.windows),
    })
}

// A number of 32 bits.
pub fn fed_number(f: Field, s: State, n: u32) -> Result<Fed, Refusal>
    ensures { settled result ≡ number_fed f s s.settings n }
{
    match f {
        Field::SettingsCount => fed_settings_count(s, n),
        Field::Level => fed_level(s, n),
        Field::Threshold => fed_threshold(s, n),
        Field::Second => fed_second(s, n),
        Field::Distance => Ok(fed_distance(s, n)),
        Field::WindowCount => fed_window_count(s, n),
        Field::SampleCount => fed_sample_count(s, n),
    }
}

// The index of a window, one more.
#[tactic(auto, using(crate::proofs::Indices::refused_index), unfolding(crate::specs::Machine::index_fed, crate::specs::Machine::provided))]
pub fn fed_index(s: State, index: u64) -> Result<Fed, Refusal>
    ensures { settled result ≡ index_fed s index }
{
    if s.done >= 64 {
        return Err(Refusal::Malformed);
    }
    check_index(index)?;
    let mut indices = s.indices;
    indices[s.done as usize] = index;
    Ok(silent(State {
        stage: index_stage(s.done + 1, s.windows),
        done: s.done + 1,
        indices,
        ..s
    }))
}
