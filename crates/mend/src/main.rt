// Mends one message both ways. The first byte of standard input is the level, those behind it, up to 64, are the message. Printed are its
// remainder, what the slow repair answers and what the tables answer, with the message that comes of it.
#![tactic(auto)]

ghost use Rattle.std.specs.Prelude.{◌≤◌};

use annex10::{Found, Repairs};
use mode_s::avr::{high_digit, low_digit};
use mode_s::crc::crc24;
use mode_s::repair::correct_message_bit_errors;
use refusals::Refusal;
use repairs::repair;
use slow::repair_slowly;
use std::io::{Read, Stdin, Stdout};

// What cannot be written is lost, and the rest is tried all the same.
fn say(output: Stdout, bytes: &[u8]) {
    let _ = output.write_all(bytes);
}

fn say_number(output: Stdout, n: u32) {
    let _ = output.print(n);
}

// Capital digits, as in every listing.
fn print_bytes(output: Stdout, bytes: &[u8]) {
    for &b in bytes {
        say(output, &[high_digit(b), low_digit(b)]);
    }
}

// Three bytes, the highest first.
fn print_remainder(output: Stdout, crc: u32) {
    print_bytes(output, &crc.to_be_bytes()[1..]);
}

fn print_repairs(output: Stdout, repairs: Repairs) {
    match repairs {
        Repairs::None => say(output, b"0"),
        Repairs::One(j) => {
            say(output, b"1:");
            say_number(output, u32::from(j));
        }
        Repairs::Two(j, k) => {
            say(output, b"2:");
            say_number(output, u32::from(j));
            say(output, b",");
            say_number(output, u32::from(k));
        }
    }
}

// The positions are turned back, so that the next repair gets the message as it came.
fn print_turned(output: Stdout, message: &mut [u8], repairs: Repairs) {
    print_repairs(output, repairs);
    say(output, b" ");
    let _ = correct_message_bit_errors(message, repairs);
    print_bytes(output, message);
    let _ = correct_message_bit_errors(message, repairs);
}

fn print_mended(output: Stdout, message: &mut [u8], mended: Result<Found, Refusal>) {
    match mended {
        Ok(Found::At(repairs)) => print_turned(output, message, repairs),
        Ok(Found::Nothing) => say(output, b"nothing"),
        Err(refusal) => {
            say(output, b"refused ");
            say_number(output, refusal.number());
        }
    }
}

fn report(output: Stdout, level: u8, message: &mut [u8]) {
    let level = u32::from(level);
    say(output, b"remainder ");
    print_remainder(output, crc24(message));
    say(output, b"\nslowly ");
    let by_trial = repair_slowly(level, message);
    print_mended(output, message, by_trial);
    say(output, b"\ntables ");
    let by_tables = repair(level, message);
    print_mended(output, message, by_tables);
    say(output, b"\n");
}

// Reads until the memory is full, the input ends or a read fails, and answers how many bytes came.
fn read_full(mut input: Stdin, space: &mut [u8; 65]) -> usize
    ensures { result ≤ 65 }
{
    let mut n = 0;
    while n < space.len() {
        match input.read(&mut space[n..]) {
            Ok(0) | Err(_) => break,
            Ok(more) => n += more,
        }
    }
    n
}

fn main(rt: HostRuntime) {
    let mut input = [0u8; 65];
    let n = read_full(rt.stdin(), &mut input);
    // without a level there is nothing to say
    if let Some((level, message)) = input[..n].split_first_mut() {
        report(rt.stdout(), *level, message);
    }
}
