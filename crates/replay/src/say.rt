// Texts and numbers on an output. What cannot be written is lost, and the rest is tried all the same.
use std::io::Stdout;

pub fn say(output: Stdout, text: &str) {
    let _ = output.write_all(text.as_bytes());
}

pub fn say_number(output: Stdout, n: u32) {
    let _ = output.print(n);
}
