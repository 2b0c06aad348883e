// Runs published messages, a line of 28 hex digits each, through remainder, header, text and repair. Each message is damaged at
// each of its positions, and at 112 pairs of them, and counts where the repair finds the damage and gives the message back.
#![tactic(auto)]

ghost use Rattle.std.specs.Prelude.{◌<◌};

use annex10::{Found, MessageKind, Repairs};
use mode_s::avr::format_avr;
use mode_s::crc::crc24;
use mode_s::header::header_is_valid;
use mode_s::repair::correct_message_bit_errors;
use refusals::Refusal;
use repairs::{double_bit_error_from_crc24, single_bit_error_from_crc24};
use std::io::{Read, Stdin, Stdout};

fn nibble(c: u8) -> u8
    ensures { result < 16 }
{
    if c >= b'A' {
        (c - (b'A' - 10)) % 16
    } else {
        c % 16
    }
}

fn message_of(line: &[u8; 29]) -> [u8; 14] {
    let mut message = [0u8; 14];
    for (k, byte) in message.iter_mut().enumerate() {
        *byte = 16 * nibble(line[2 * k]) + nibble(line[2 * k + 1]);
    }
    message
}

fn flipped(message: [u8; 14], repairs: Repairs) -> [u8; 14] {
    let mut m = message;
    let _ = correct_message_bit_errors(&mut m, repairs);
    m
}

// Whether what was found gives the message back.
fn mends(message: [u8; 14], damaged: [u8; 14], found: Found) -> bool {
    match found {
        Found::At(repairs) => flipped(damaged, repairs) == message,
        Found::Nothing => false,
    }
}

fn single_mended(message: [u8; 14], j: u8) -> bool {
    let damaged = flipped(message, Repairs::One(j));
    let found = single_bit_error_from_crc24(crc24(&damaged));
    mends(message, damaged, found)
}

fn double_mended(message: [u8; 14], j: u8, k: u8) -> bool {
    let damaged = flipped(message, Repairs::Two(j, k));
    let found = double_bit_error_from_crc24(crc24(&damaged));
    mends(message, damaged, found)
}

// How many of the 112 single errors are found and mended.
fn singles(message: [u8; 14]) -> usize {
    (0..112).filter(|&j| single_mended(message, j)).count()
}

// How many of the 112 double errors of j and a second position.
fn doubles(message: [u8; 14]) -> usize {
    (0..112)
        .filter(|&j| double_mended(message, j, (j + 37) % 112))
        .count()
}

// How many of all 6,216.
fn all_doubles(message: [u8; 14]) -> usize {
    (0..112)
        .map(|k| (0..k).filter(|&j| double_mended(message, j, k)).count())
        .fold(0, usize::wrapping_add)
}

// What cannot be written is lost, and the rest is tried all the same.
fn say(output: Stdout, bytes: &[u8]) {
    let _ = output.write_all(bytes);
}

fn say_number(output: Stdout, n: usize) {
    let _ = output.print(n);
}

fn print_crc(output: Stdout, crc: u32) {
    let _ = print!(output; "{crc:06x}");
}

fn print_validity(output: Stdout, valid: Result<bool, Refusal>) {
    match valid {
        Ok(true) => say(output, b" valid"),
        Ok(false) => say(output, b" invalid"),
        Err(_) => say(output, b" refused"),
    }
}

fn print_message(output: Stdout, message: [u8; 14]) {
    let mut text = [0u8; 30];
    let _ = format_avr(&message, &mut text);
    say(output, &text);
    say(output, b" ");
    print_crc(output, crc24(&message));
    print_validity(
        output,
        header_is_valid(MessageKind::Long, message[0], Repairs::None),
    );
    say(output, b" singles ");
    say_number(output, singles(message));
    say(output, b" doubles ");
    say_number(output, doubles(message));
    say(output, b"\n");
}

// The message of the next line, until there is none.
fn next_message(mut input: Stdin) -> Option<[u8; 14]> {
    let mut line = [0u8; 29];
    input.read_exact(&mut line).ok()?;
    Some(message_of(&line))
}

fn main(rt: HostRuntime) {
    let input = rt.stdin();
    let output = rt.stdout();
    say(output, b"check ");
    print_crc(output, crc24(b"123456789"));
    say(output, b"\n");
    let mut last = [0u8; 14];
    for _ in 0..64 {
        let Some(message) = next_message(input) else {
            break;
        };
        print_message(output, message);
        last = message;
    }
    say(output, b"all doubles of the last ");
    say_number(output, all_doubles(last));
    say(output, b"\n");
}
