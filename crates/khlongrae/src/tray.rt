// A tray: up to 64 windows in one call, one result behind another in lent rows.
ghost use Rattle.std.specs.Prelude.{◌≡◌, true, false};
ghost use Rattle.rows.specs.Tray.{kinds_of, tray_into};
ghost use Rattle.khlongrae.specs.Flat.{settings_of};

use crate::settings::settings_of;
use receiver::tray::{decode_tray, decode_tray_both};
use refusals::number_of;

// Answers number 0 and writes for each window what khlongrae_decode answers for it, its index and the settings: 14 bytes, 11 whole numbers,
// of which the last is the window's own number, and 2 floats; zeros where that number is not 0. Refused, with nothing written: 2 more than
// 64 windows, numbers that are not 2,310 for each, indices that are not one for each; 3 outputs of another length; 4, 5 the settings.
pub fn khlongrae_tray(
    count: usize,
    samples: &[f32],
    level: u32,
    threshold: f32,
    second: f32,
    distance: u32,
    indices: &[u64],
    messages: &mut [u8],
    words: &mut [u64],
    floats: &mut [f32],
) -> u32
    ensures { (result, messages.new, words.new, floats.new) ≡ tray_into (kinds_of false) count samples.now (settings_of level threshold second distance) indices.now (messages.old, words.old, floats.old) }
{
    let s = settings_of(level, threshold, second, distance);
    number_of(decode_tray(count, samples, s, indices, messages, words, floats))
}

// Both searches of each window: 21 bytes, 22 whole numbers and 4 floats, those of the long message and then those of the short one.
pub fn khlongrae_tray_both(
    count: usize,
    samples: &[f32],
    level: u32,
    threshold: f32,
    second: f32,
    distance: u32,
    indices: &[u64],
    messages: &mut [u8],
    words: &mut [u64],
    floats: &mut [f32],
) -> u32
    ensures { (result, messages.new, words.new, floats.new) ≡ tray_into (kinds_of true) count samples.now (settings_of level threshold second distance) indices.now (messages.old, words.old, floats.old) }
{
    let s = settings_of(level, threshold, second, distance);
    number_of(decode_tray_both(count, samples, s, indices, messages, words, floats))
}
