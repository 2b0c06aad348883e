// Reads standard input in the parts that are wanted, hands each over and writes what is to be said. What that is stands in `feed`;
// docs/WINDOWS.md has both formats. Where `slowly` is true every repair is found by trial; what is written is the same.
#![tactic(auto)]

mod handed;
mod text;

ghost use Rattle.std.specs.Prelude.{◌≡◌, ◌≤◌, length, IfOk};
ghost use Rattle.feed.specs.declared.Stage.TheVariants.{Over};
ghost use Rattle.feed.specs.Machine.{blank_of};
ghost use Rattle.program.specs.Inner.{Nearer};

use crate::handed::{Step, broken_off, taken};
use feed::State;
use feed::machine::{start, wanted};
use listing::Text;
use std::io;
use std::io::{Read, Stdin, Stdout};

// Reads until the part is full or the input ends: how many bytes came, which `read_exact` would not tell.
fn read_part(mut input: Stdin, part: &mut [u8]) -> io::Result<usize>
    ensures { IfOk result (λ n. n ≤ length part.new) }
{
    let mut n = 0;
    while n < part.len() {
        match input.read(&mut part[n..])? {
            0 => break,
            more => n += more,
        }
    }
    Ok(n)
}

// Reads as many bytes as are wanted, and hands them over.
#[tactic(auto, using(feed::proofs::Left::wanted_most, crate::proofs::Ended::wanted_within, crate::proofs::Ended::nearer_taken, crate::proofs::Ended::nearer_broken), unfolding(crate::specs::Printed::taken_of, crate::specs::Printed::broken_off))]
fn step_in(input: Stdin, slowly: bool, state: State, space: &mut [u8]) -> Step
    requires { length space.old ≡ 9240 }
    ensures { Nearer state result.state }
{
    let part = &mut space[..wanted(state)];
    match read_part(input, part) {
        Ok(n) => taken(slowly, state, &part[..n]),
        Err(_) => broken_off(slowly, state),
    }
}

// No part is longer than the samples of a window.
fn step(input: Stdin, slowly: bool, state: State) -> Step
    ensures { Nearer state result.state }
{
    step_in(input, slowly, state, &mut [0; 9240])
}

// What is said is never longer than the text that holds it. What cannot be written is lost, and the program goes on.
fn print(output: Stdout, text: &Text) {
    if let Some(bytes) = text.bytes.get(..text.length) {
        let _ = output.write_all(bytes);
    }
}

// The program, to its end. A contract speaks of no input and no output: that it prints the listing is `Prints` in specs/Printed.antt. What it
// can say is that nothing is left out at the end: the last state is the one in which all is over.
pub fn run(input: Stdin, output: Stdout, slowly: bool) -> State
    ensures { result ≡ blank_of Over }
{
    let mut state = start();
    while wanted(state) > 0 {
        let step = step(input, slowly, state);
        print(output, &step.text);
        state = step.state;
    }
    state
}
