// Replays the answers that the Rust gave, with the logarithm of the rules and trial 4's slip mended, and those of the rules, written down a
// second time, for short messages, undecided bits and trials. Standard input holds their count, and for each how its window is made and
// what was answered (tools/compare --record wrote it).
#![tactic(auto)]

mod compare;
mod make;
mod record;
mod say;

use crate::compare::{long_difference, short_difference};
use crate::make::window;
use crate::record::{long_word, word};
use crate::say::{say, say_number};
use receiver::decode::decode_both;
use search::{BothAnswers, Settings};
use std::io::{Read, Stdin, Stdout};
use words::float::float_of;

fn decoded(r: &[u8; 408], samples: &[f32; 2310]) -> BothAnswers {
    decode_both(
        samples,
        Settings {
            level: word(r, 0),
            threshold: float_of(word(r, 4)),
            second: float_of(word(r, 8)),
            distance: word(r, 12),
        },
        long_word(r, 16),
    )
}

// Whether no field differs. One that does is told.
fn met(output: Stdout, k: u32, kind: &str, difference: Option<&str>) -> bool {
    let Some(field) = difference else {
        return true;
    };
    say(output, "window ");
    say_number(output, k);
    say(output, kind);
    say(output, field);
    say(output, " disagrees\n");
    false
}

// Whether the record is met, by both searches.
fn replay(output: Stdout, r: &[u8; 408], k: u32) -> bool {
    let samples = window(r);
    let both = decoded(r, &samples);
    let long = met(output, k, ": ", long_difference(r, both.long));
    let short = met(output, k, ": short ", short_difference(r, both.short));
    long && short
}

fn replay_next(mut input: Stdin, output: Stdout, k: u32) -> bool {
    let mut r = [0u8; 408];
    if input.read_exact(&mut r).is_err() {
        say(output, "the list is too short\n");
        return false;
    }
    replay(output, &r, k)
}

// How many windows the list holds.
fn count(mut input: Stdin) -> u32 {
    let mut head = [0u8; 4];
    let _ = input.read_exact(&mut head);
    u32::from(u16::from_le_bytes([head[0], head[1]]))
}

fn main(rt: HostRuntime) {
    let input = rt.stdin();
    let output = rt.stdout();
    let n = count(input);
    let mut wrong: u32 = 0;
    for k in 0..n {
        if !replay_next(input, output, k) {
            wrong = wrong.wrapping_add(1);
        }
    }
    say_number(output, n);
    say(output, " windows, ");
    say_number(output, wrong);
    say(output, " disagree\n");
}
