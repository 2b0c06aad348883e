// A tray: up to 64 windows in one call. The hashes are written out once for all of them, and so is the memory for their sums.
ghost use Rattle.std.specs.Prelude.{◌≡◌, true, false, ◌&&◌, ◌++◌, ◌+◌, ◌*◌, ◌<◌, ◌≤◌, eqb, length, get_or, take};
ghost use Rattle.refusals.specs.Refusals.{told_number};
ghost use Rattle.search.specs.Kinds.{long, short};
ghost use Rattle.search.specs.Answers.{decode_of};
ghost use Rattle.receiver.specs.Inner.{cut_answer};
ghost use Rattle.receiver.specs.InnerSearches.{row_in};
ghost use Rattle.rows.specs.Rows.{result_of, numbers_of, with_row, rows_of};
ghost use Rattle.rows.specs.Tray.{kinds_of, window_at, message_of, tray_row, bytes_in, words_in, floats_in, room_in, tray_number, tray_into};

use crate::answer::{BothIn, both_in, decode_in};
use crate::lent::{Hash, Windows};
use choice::settings::check_settings;
use refusals::Refusal;
use rows::put_result;
use search::{Answer, Settings};
use sieve::hash::write_hash;

// The outputs have these lengths.
fn have_lengths(
    bytes: usize,
    whole: usize,
    pairs: usize,
    messages: &[u8],
    words: &[u64],
    floats: &[f32],
) -> bool
    ensures { result ≡ (eqb (length messages.now) bytes && (eqb (length words.now) whole && eqb (length floats.now) pairs)) }
{
    messages.len() == bytes && words.len() == whole && floats.len() == pairs
}

// There is room for n results.
fn have_room(both: bool, n: usize, messages: &[u8], words: &[u64], floats: &[f32]) -> bool
    requires { n ≤ 64 }
    ensures { result ≡ room_in (kinds_of both) n (messages.now, words.now, floats.now) }
{
    if both {
        have_lengths(21 * n, 22 * n, 4 * n, messages, words, floats)
    } else {
        have_lengths(14 * n, 11 * n, 2 * n, messages, words, floats)
    }
}

// What is refused of a tray.
fn check_tray(
    both: bool,
    n: usize,
    samples: &[f32],
    s: Settings,
    indices: &[u64],
    messages: &[u8],
    words: &[u64],
    floats: &[f32],
) -> Result<(), Refusal>
    ensures { told_number result ≡ tray_number (kinds_of both) n samples.now s indices.now (messages.now, words.now, floats.now) }
{
    if n > 64 || samples.len() != 2310 * n || indices.len() != n {
        return Err(Refusal::Input);
    }
    if !have_room(both, n, messages, words, floats) {
        return Err(Refusal::Output);
    }
    check_settings(s)
}

// The answers of both searches side by side.
fn put_both(a: BothIn, message: &mut [u8], words: &mut [u64], floats: &mut [f32])
    requires { (length message.old ≡ 21) × (length words.old ≡ 22) × (length floats.old ≡ 4) × (length a.long.message ≡ 14) }
    ensures { (message.new ≡ take 14 a.long.message ++ take 7 a.short.message) × (words.new ≡ result_of a.long ++ result_of a.short) × (floats.new ≡ numbers_of a.long ++ numbers_of a.short) }
{
    let _ = put_result(
        a.long,
        &mut message[0..14],
        &mut words[0..11],
        &mut floats[0..2],
    );
    let _ = put_result(
        a.short,
        &mut message[14..],
        &mut words[11..],
        &mut floats[2..],
    );
}

// Window k of a tray.
fn window_at(samples: &[f32], k: usize) -> &[f32]
    requires { (k < 64) × (2310 * (k + 1) ≤ length samples.now) }
    ensures { result.now ≡ window_at samples.now k }
{
    let to = 2310 * (k + 1);
    &samples[to - 2310..to]
}

// What is answered for it, with its index.
fn decode_at(w: &Windows, hash: Hash, k: usize, sums: &mut [f32]) -> Answer
    requires { (k < w.now.n) × (length sums.old ≡ 2304) }
    ensures { result ≡ decode_of long (window_at w.now.samples.now k) w.now.s (get_or w.now.indices.now k 0) }
{
    decode_in(window_at(w.samples, k), sums, hash, w.s, w.indices[k])
}

fn both_at(w: &Windows, hash: Hash, k: usize, sums: &mut [f32]) -> BothIn
    requires { (k < w.now.n) × (length sums.old ≡ 2304) }
    ensures { (result.long ≡ decode_of long (window_at w.now.samples.now k) w.now.s (get_or w.now.indices.now k 0)) × (cut_answer result.short ≡ decode_of short (window_at w.now.samples.now k) w.now.s (get_or w.now.indices.now k 0)) }
{
    both_in(
        false,
        window_at(w.samples, k),
        sums,
        hash,
        w.s,
        w.indices[k],
    )
}

// Result k of a tray for long messages.
fn step_long(
    w: &Windows,
    hash: Hash,
    k: usize,
    sums: &mut [f32],
    messages: &mut [u8],
    words: &mut [u64],
    floats: &mut [f32],
)
    requires { (k < w.now.n) × (length sums.old ≡ 2304) × (length messages.old ≡ 14 * w.now.n) × (length words.old ≡ 11 * w.now.n) × (length floats.old ≡ 2 * w.now.n) }
    ensures { (messages.new ≡ with_row 14 k (row_in message_of false w.now k) messages.old) × (words.new ≡ with_row 11 k (row_in result_of false w.now k) words.old) × (floats.new ≡ with_row 2 k (row_in numbers_of false w.now k) floats.old) }
{
    let a = decode_at(w, hash, k, sums);
    let _ = put_result(
        a,
        &mut messages[14 * k..14 * k + 14],
        &mut words[11 * k..11 * k + 11],
        &mut floats[2 * k..2 * k + 2],
    );
}

// Result k of one for both searches.
fn step_both(
    w: &Windows,
    hash: Hash,
    k: usize,
    sums: &mut [f32],
    messages: &mut [u8],
    words: &mut [u64],
    floats: &mut [f32],
)
    requires { (k < w.now.n) × (length sums.old ≡ 2304) × (length messages.old ≡ 21 * w.now.n) × (length words.old ≡ 22 * w.now.n) × (length floats.old ≡ 4 * w.now.n) }
    ensures { (messages.new ≡ with_row 21 k (row_in message_of true w.now k) messages.old) × (words.new ≡ with_row 22 k (row_in result_of true w.now k) words.old) × (floats.new ≡ with_row 4 k (row_in numbers_of true w.now k) floats.old) }
{
    let a = both_at(w, hash, k, sums);
    put_both(
        a,
        &mut messages[21 * k..21 * k + 21],
        &mut words[22 * k..22 * k + 22],
        &mut floats[4 * k..4 * k + 4],
    );
}

// Result k of either.
fn step(
    both: bool,
    w: &Windows,
    hash: Hash,
    k: usize,
    sums: &mut [f32],
    messages: &mut [u8],
    words: &mut [u64],
    floats: &mut [f32],
)
    requires { (k < w.now.n) × (length sums.old ≡ 2304) × (length messages.old ≡ bytes_in (kinds_of both) * w.now.n) × (length words.old ≡ words_in (kinds_of both) * w.now.n) × (length floats.old ≡ floats_in (kinds_of both) * w.now.n) }
    ensures { (messages.new ≡ with_row (bytes_in (kinds_of both)) k (row_in message_of both w.now k) messages.old) × (words.new ≡ with_row (words_in (kinds_of both)) k (row_in result_of both w.now k) words.old) × (floats.new ≡ with_row (floats_in (kinds_of both)) k (row_in numbers_of both w.now k) floats.old) }
{
    if both {
        step_both(w, hash, k, sums, messages, words, floats);
    } else {
        step_long(w, hash, k, sums, messages, words, floats);
    }
}

// All n results, with memory for the sums lent.
fn fill(
    both: bool,
    w: &Windows,
    hash: Hash,
    sums: &mut [f32],
    messages: &mut [u8],
    words: &mut [u64],
    floats: &mut [f32],
)
    requires { (length sums.old ≡ 2304) × (length messages.old ≡ bytes_in (kinds_of both) * w.now.n) × (length words.old ≡ words_in (kinds_of both) * w.now.n) × (length floats.old ≡ floats_in (kinds_of both) * w.now.n) }
    ensures { (messages.new ≡ rows_of (row_in message_of both w.now) w.now.n) × (words.new ≡ rows_of (row_in result_of both w.now) w.now.n) × (floats.new ≡ rows_of (row_in numbers_of both w.now) w.now.n) }
{
    for k in 0..w.n {
        step(both, w, hash, k, sums, messages, words, floats);
    }
}

// The tray that is taken: what its windows share is made here.
fn fill_lent(
    both: bool,
    n: usize,
    samples: &[f32],
    s: Settings,
    indices: &[u64],
    messages: &mut [u8],
    words: &mut [u64],
    floats: &mut [f32],
)
    requires { (n ≤ 64) × (length samples.now ≡ 2310 * n) × (length indices.now ≡ n) × (length messages.old ≡ bytes_in (kinds_of both) * n) × (length words.old ≡ words_in (kinds_of both) * n) × (length floats.old ≡ floats_in (kinds_of both) * n) }
    ensures { (messages.new ≡ rows_of (tray_row message_of (kinds_of both) samples.now s indices.now) n) × (words.new ≡ rows_of (tray_row result_of (kinds_of both) samples.now s indices.now) n) × (floats.new ≡ rows_of (tray_row numbers_of (kinds_of both) samples.now s indices.now) n) }
{
    let mut displacements = [0; 2688];
    let mut owners = [0; 8704];
    let mut sums = [0.0; 2304];
    let _ = write_hash(&mut displacements, &mut owners);
    let hash = Hash {
        displacements: &displacements,
        owners: &owners,
    };
    let windows = Windows {
        n,
        samples,
        s,
        indices,
    };
    fill(both, &windows, hash, &mut sums, messages, words, floats);
}

// A tray of either kind.
fn decode_windows(
    both: bool,
    n: usize,
    samples: &[f32],
    s: Settings,
    indices: &[u64],
    messages: &mut [u8],
    words: &mut [u64],
    floats: &mut [f32],
) -> Result<(), Refusal>
    ensures { (told_number result, messages.new, words.new, floats.new) ≡ tray_into (kinds_of both) n samples.now s indices.now (messages.old, words.old, floats.old) }
{
    check_tray(both, n, samples, s, indices, messages, words, floats)?;
    if n > 0 {
        fill_lent(both, n, samples, s, indices, messages, words, floats);
    }
    Ok(())
}

// The messages of n windows, one result behind another: what `decode` answers for each window, its index and the settings. Refused, with
// nothing written: 2 more than 64 windows, or inputs that are not theirs, 3 outputs of another length, 4, 5.
pub fn decode_tray(
    n: usize,
    samples: &[f32],
    s: Settings,
    indices: &[u64],
    messages: &mut [u8],
    words: &mut [u64],
    floats: &mut [f32],
) -> Result<(), Refusal>
    ensures { (told_number result, messages.new, words.new, floats.new) ≡ tray_into (kinds_of false) n samples.now s indices.now (messages.old, words.old, floats.old) }
{
    decode_windows(false, n, samples, s, indices, messages, words, floats)
}

// Both searches of each window: what `decode_both` answers, the long answer and then the short one.
pub fn decode_tray_both(
    n: usize,
    samples: &[f32],
    s: Settings,
    indices: &[u64],
    messages: &mut [u8],
    words: &mut [u64],
    floats: &mut [f32],
) -> Result<(), Refusal>
    ensures { (told_number result, messages.new, words.new, floats.new) ≡ tray_into (kinds_of true) n samples.now s indices.now (messages.old, words.old, floats.old) }
{
    decode_windows(true, n, samples, s, indices, messages, words, floats)
}
