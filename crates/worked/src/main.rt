// Three worked windows, step by step and decoded. The first holds one message without noise. In the second the slicers disagree at one
// place, so that trial 4 clears the noncoherent bits, fails at their header, and trial 5 has to go back to the coherent bits. The third is
// the first with five bits of which nothing came in.
#![tactic(auto)]

ghost use Rattle.std.specs.Prelude.{◌≡◌, ◌≤◌, ◌<◌, length};

use annex10::{MessageKind, Repairs};
use kernels::symbols::accumulate_symbols;
use mode_s::avr::format_avr;
use place::Slicer;
use receiver::decode::decode;
use search::{Answer, Settings};
use slicing::slicers::demodulate;
use std::io::Stdout;
use streams::crc::compute_crc;
use streams::message::extract_message;

// The message that the first window holds.
const SENT: [u8; 14] = [0x88, 0x07, 0x76, 0xac, 0, 0, 0, 0, 0, 0, 0, 0, 0, 0];

// Four samples of a pulse: re is 1.0.
fn pulse(samples: &mut [f32; 2310], start: usize)
    requires { start < 1152 }
{
    for m in 0..4 {
        samples[2 * (start + m)] = 1.0;
    }
}

// What cannot be written is lost, and the rest is tried all the same.
fn say(output: Stdout, bytes: &[u8]) {
    let _ = output.write_all(bytes);
}

fn say_number(output: Stdout, n: u64) {
    let _ = output.print(n);
}

fn print_message(output: Stdout, bytes: [u8; 14]) {
    let mut line = [0u8; 30];
    let _ = format_avr(&bytes, &mut line);
    say(output, &line);
}

// The message at a bit offset, and its remainder.
fn show_stream(output: Stdout, stream: &[u8], bit: usize) {
    print_message(output, extract_message(stream, bit).unwrap_or([0; 14]));
    match compute_crc(MessageKind::Long, stream, bit) {
        Ok(remainder) => {
            say(output, b" remainder ");
            say_number(output, u64::from(remainder));
        }
        Err(refusal) => {
            say(output, b" refused ");
            say_number(output, u64::from(refusal.number()));
        }
    }
}

// The marks of its undecided bits, in the form of a message.
fn show_marks(output: Stdout, marks: &[u8], bit: usize) {
    say(output, b" undecided ");
    print_message(output, extract_message(marks, bit).unwrap_or([0; 14]));
    say(output, b"\n");
}

// The coherent stream of a symbol offset, of the symbols of one phase.
fn show(output: Stdout, row: &[f32], bit: usize, symbol: usize)
    requires { symbol ≤ 1 }
{
    let mut coherent = [0u8; 36];
    let mut noncoherent = [0u8; 36];
    let mut coherent_marks = [0u8; 36];
    let mut noncoherent_marks = [0u8; 36];
    let _ = demodulate(
        row,
        &mut coherent,
        &mut noncoherent,
        &mut coherent_marks,
        &mut noncoherent_marks,
    );
    let from = 18 * symbol;
    let to = from + 18;
    show_stream(output, &coherent[from..to], bit);
    show_marks(output, &coherent_marks[from..to], bit);
}

// The rows of two phases.
fn show_places(output: Stdout, symbols: &[f32])
    requires { length symbols.now ≡ 2304 }
{
    say(output, b"15 3 1 ");
    show(output, &symbols[1728..2304], 15, 1);
    say(output, b"16 0 0 ");
    show(output, &symbols[0..576], 16, 0);
}

fn read(output: Stdout, samples: &[f32; 2310]) {
    let mut symbols = [0.0f32; 2304];
    let _ = accumulate_symbols(samples, &mut symbols);
    show_places(output, &symbols);
}

// The bits that the two slicers are to read in the second window.
const COHERENT: [u8; 14] = [0x88, 0x07, 0x76, 0xac, 0, 0, 0, 0, 0, 0, 0, 0, 0, 0x03];

const NONCOHERENT: [u8; 14] = [0, 0, 0, 0, 0, 0, 0, 0, 0, 0, 0, 0, 0, 0x01];

fn bit_of(message: &[u8; 14], j: usize) -> u8
    requires { j < 112 }
{
    (message[j / 8] >> (7 - j % 8)) & 1
}

// Four samples of a greater power and no real part.
fn turned_pulse(samples: &mut [f32; 2310], start: usize)
    requires { start < 1152 }
{
    for m in 0..4 {
        samples[2 * (start + m) + 1] = 2.0;
    }
}

// From sample 128 on, eight samples a bit: a pulse in the first half for 1, in the second for 0. Where the slicers are to differ the
// other half has the greater power.
fn send_both(coherent: &[u8; 14], noncoherent: &[u8; 14], samples: &mut [f32; 2310]) {
    for j in 0..112 {
        let c = bit_of(coherent, j);
        let n = bit_of(noncoherent, j);
        let first = 128 + 8 * j;
        let second = first + 4;
        pulse(samples, if c == 1 { first } else { second });
        if c != n {
            turned_pulse(samples, if n == 1 { first } else { second });
        }
    }
}

// Five bits of which nothing came in.
fn blank(samples: &mut [f32; 2310], start: usize)
    requires { start < 1116 }
{
    for m in 0..40 {
        samples[2 * (start + m)] = 0.0;
    }
}

fn print_word(output: Stdout, n: u64) {
    say(output, b" ");
    say_number(output, n);
}

fn print_repairs(output: Stdout, repairs: Repairs) {
    match repairs {
        Repairs::None => say(output, b" none"),
        Repairs::One(j) => print_word(output, u64::from(j)),
        Repairs::Two(j, k) => {
            print_word(output, u64::from(j));
            print_word(output, u64::from(k));
        }
    }
}

fn print_slicer(output: Stdout, slicer: Slicer) {
    match slicer {
        Slicer::Coherent => say(output, b" coherent"),
        Slicer::Noncoherent => say(output, b" noncoherent"),
    }
}

// Whether it is above every finite number, and the fraction in halves.
fn print_floats(output: Stdout, cn0: f32, fraction: f32) {
    if cn0 == f32::INFINITY {
        say(output, b" cn0 infinite");
    } else {
        say(output, b" cn0 finite");
    }
    if fraction == -0.5 {
        say(output, b" fraction -0.5");
    } else {
        say(output, b" fraction other");
    }
}

fn print_answer(output: Stdout, a: Answer) {
    let location = a.location;
    say(output, b"decoded");
    print_word(output, u64::from(a.number));
    print_word(output, location.place.bit as u64);
    print_word(output, location.place.phase as u64);
    print_word(output, location.place.symbol as u64);
    say(output, b" ");
    print_message(output, a.message);
    print_repairs(output, location.repairs);
    print_slicer(output, location.slicer);
    print_floats(output, a.cn0, a.fraction);
    say(output, b" index");
    print_word(output, a.index);
    say(output, b" undecided");
    print_word(output, u64::from(a.undecided));
    say(output, b" trial");
    print_word(output, u64::from(location.trial));
    say(output, b"\n");
}

fn settings() -> Settings {
    Settings {
        level: 2,
        threshold: 67.0,
        second: 71.0,
        distance: 8,
    }
}

fn show_answer(output: Stdout, samples: &[f32; 2310]) {
    print_answer(output, decode(samples, settings(), 128));
}

fn main(rt: HostRuntime) {
    let output = rt.stdout();
    let mut samples = [0.0f32; 2310];
    send_both(&SENT, &SENT, &mut samples);
    read(output, &samples);
    show_answer(output, &samples);
    let mut other = [0.0f32; 2310];
    send_both(&COHERENT, &NONCOHERENT, &mut other);
    show_answer(output, &other);
    // Bits 40 to 44 of the message, which are 0.
    blank(&mut samples, 448);
    read(output, &samples);
    show_answer(output, &samples);
}
