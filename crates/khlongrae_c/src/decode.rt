// The decode: settings by value, the answers in lent memory.
ghost use Rattle.std.specs.Prelude.{◌≡◌};
ghost use Rattle.search.specs.Kinds.{long, short};
ghost use Rattle.khlongrae.specs.Flat.{settings_of, decode_into, both_into};

use khlongrae::decode::FlatBoth;

#[unsafe(no_mangle)]
pub extern "C" fn khlongrae_decode(
    samples: &[f32],
    level: u32,
    threshold: f32,
    second: f32,
    distance: u32,
    index: u64,
    message: &mut [u8],
    words: &mut [u64],
    numbers: &mut [f32],
) -> u32
    ensures { (result, message.new, words.new, numbers.new) ≡ decode_into long samples.now (settings_of level threshold second distance) index (message.old, words.old, numbers.old) }
{
    khlongrae::decode::khlongrae_decode(
        samples, level, threshold, second, distance, index, message, words, numbers,
    )
}

#[unsafe(no_mangle)]
pub extern "C" fn khlongrae_decode_short(
    samples: &[f32],
    level: u32,
    threshold: f32,
    second: f32,
    distance: u32,
    index: u64,
    message: &mut [u8],
    words: &mut [u64],
    numbers: &mut [f32],
) -> u32
    ensures { (result, message.new, words.new, numbers.new) ≡ decode_into short samples.now (settings_of level threshold second distance) index (message.old, words.old, numbers.old) }
{
    khlongrae::decode::khlongrae_decode_short(
        samples, level, threshold, second, distance, index, message, words, numbers,
    )
}

#[unsafe(no_mangle)]
pub extern "C" fn khlongrae_decode_both(
    samples: &[f32],
    level: u32,
    threshold: f32,
    second: f32,
    distance: u32,
    index: u64,
    message: &mut [u8],
    words: &mut [u64],
    numbers: &mut [f32],
    short_message: &mut [u8],
    short_words: &mut [u64],
    short_numbers: &mut [f32],
) -> FlatBoth
    ensures { (result, message.new, words.new, numbers.new, short_message.new, short_words.new, short_numbers.new) ≡ both_into samples.now (settings_of level threshold second distance) index (message.old, words.old, numbers.old) (short_message.old, short_words.old, short_numbers.old) }
{
    khlongrae::decode::khlongrae_decode_both(
        samples,
        level,
        threshold,
        second,
        distance,
        index,
        message,
        words,
        numbers,
        short_message,
        short_words,
        short_numbers,
    )
}
