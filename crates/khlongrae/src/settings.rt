// The settings of a decode, from their numbers.
ghost use Rattle.std.specs.Prelude.{◌≡◌};
ghost use Rattle.khlongrae.specs.Flat.{settings_of};

use search::Settings;

pub fn settings_of(level: u32, threshold: f32, second: f32, distance: u32) -> Settings
    ensures { result ≡ settings_of level threshold second distance }
{
    Settings {
        level,
        threshold,
        second,
        distance,
    }
}
