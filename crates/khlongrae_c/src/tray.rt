// A tray: up to 64 windows in one call.
ghost use Rattle.std.specs.Prelude.{◌≡◌, true, false};
ghost use Rattle.rows.specs.Tray.{kinds_of, tray_into};
ghost use Rattle.khlongrae.specs.Flat.{settings_of};

#[unsafe(no_mangle)]
pub extern "C" fn khlongrae_tray(
    count: usize,
    samples: &[f32],
    level: u32,
    threshold: f32,
    second: f32,
    distance: u32,
    indices: &[u64],
    messages: &mut [u8],
    words: &mut [u64],
    floats: &mut [f32],
) -> u32
    ensures { (result, messages.new, words.new, floats.new) ≡ tray_into (kinds_of false) count samples.now (settings_of level threshold second distance) indices.now (messages.old, words.old, floats.old) }
{
    khlongrae::tray::khlongrae_tray(
        count, samples, level, threshold, second, distance, indices, messages, words, floats,
    )
}

#[unsafe(no_mangle)]
pub extern "C" fn khlongrae_tray_both(
    count: usize,
    samples: &[f32],
    level: u32,
    threshold: f32,
    second: f32,
    distance: u32,
    indices: &[u64],
    messages: &mut [u8],
    words: &mut [u64],
    floats: &mut [f32],
) -> u32
    ensures { (result, messages.new, words.new, floats.new) ≡ tray_into (kinds_of true) count samples.now (settings_of level threshold second distance) indices.now (messages.old, words.old, floats.old) }
{
    khlongrae::tray::khlongrae_tray_both(
        count, samples, level, threshold, second, distance, indices, messages, words, floats,
    )
}
