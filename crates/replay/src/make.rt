// A window from its record: noise, planted strings, a scale, blanked stretches, and single numbers that are stored in the end.
ghost use Rattle.std.specs.Prelude.{◌<◌, ◌≤◌};

use crate::record::word;
use words::float::float_of;

fn next(w: u32) -> u32 {
    let a = w ^ (w << 13);
    let b = a ^ (a >> 17);
    b ^ (b << 5)
}

// -8 to 7.
fn small(w: u32) -> f32 {
    f32::from((w >> 28) as u16) - 8.0
}

fn put_noise(x: &mut [f32; 2310], seed: u32, noise: f32) {
    let mut w = seed;
    for value in x.iter_mut() {
        w = next(w);
        *value = small(w) * noise;
    }
}

// Bit j of the string from a byte of the record on.
fn bit(r: &[u8; 408], from: usize, j: usize) -> u8
    requires { (from ≤ 298) × (j < 112) }
{
    (r[from + j / 8] >> (7 - j % 8)) & 1
}

// What symbol n of a plant is to be, re for part 0. By real part it says the first string, by norm the second.
fn target(r: &[u8; 408], plant: usize, n: usize, part: usize) -> f32
    requires { (plant < 4) × (n < 224) }
{
    let at = 40 + 36 * plant;
    let amplitude = float_of(word(r, at + 4));
    let coherent = bit(r, at + 8, n / 2);
    let noncoherent = bit(r, at + 22, n / 2);
    // In the first half a 1 is a pulse, in the second a 0.
    let pulse = 1 - (n % 2) as u8;
    if part == 0 {
        if coherent == pulse { amplitude } else { 0.0 }
    } else if coherent != noncoherent && noncoherent == pulse {
        amplitude + amplitude
    } else {
        0.0
    }
}

fn start_of(r: &[u8; 408], plant: usize) -> usize
    requires { plant < 4 }
    ensures { result < 256 }
{
    (word(r, 40 + 36 * plant) % 256) as usize
}

// One sample of the symbol, or all four.
fn put_symbol(x: &mut [f32; 2310], at: usize, full: bool, value: f32)
    requires { at < 2304 }
{
    let (first, last) = if full { (0, 3) } else { (1, 1) };
    for m in first..=last {
        x[at + 2 * m] += value;
    }
}

fn put_plant(x: &mut [f32; 2310], r: &[u8; 408], plant: usize, full: bool, part: usize)
    requires { (plant < 4) × (part ≤ 1) }
{
    let start = start_of(r, plant);
    for n in 0..224 {
        put_symbol(
            x,
            2 * (start + 4 * n) + part,
            full,
            target(r, plant, n, part),
        );
    }
}

// Four plants at four samples that follow one another: symbol n of each.
fn put_four(x: &mut [f32; 2310], r: &[u8; 408], n: usize, at: usize, part: usize)
    requires { (n < 224) × (at < 2297) }
{
    let a = target(r, 0, n, part);
    let b = target(r, 1, n, part);
    let c = target(r, 2, n, part);
    let d = target(r, 3, n, part);
    x[at + 6] = ((a - x[at]) - x[at + 2]) - x[at + 4];
    x[at + 8] = (x[at] + b) - a;
    x[at + 10] = (x[at + 2] + c) - b;
    x[at + 12] = (x[at + 4] + d) - c;
}

fn put_row(x: &mut [f32; 2310], r: &[u8; 408], part: usize)
    requires { part ≤ 1 }
{
    let start = start_of(r, 0);
    for n in 0..224 {
        put_four(x, r, n, 2 * (start + 4 * n) + part, part);
    }
}

fn put_part(x: &mut [f32; 2310], r: &[u8; 408], part: usize)
    requires { part ≤ 1 }
{
    let shape = word(r, 36);
    if shape == 2 {
        put_row(x, r, part);
    } else {
        let full = shape == 1;
        for plant in 0..4 {
            put_plant(x, r, plant, full, part);
        }
    }
}

fn scale(x: &mut [f32; 2310], by: f32) {
    for value in x.iter_mut() {
        *value *= by;
    }
}

// Nothing came in for so many samples from one on.
fn blank(x: &mut [f32; 2310], first: u32, count: u32) {
    let from = first.min(1155) as usize;
    let to = first.saturating_add(count).min(1155) as usize;
    x[2 * from..2 * to].fill(0.0);
}

fn store(x: &mut [f32; 2310], at: u32, bits: u32) {
    if let Some(value) = x.get_mut(at as usize) {
        *value = float_of(bits);
    }
}

fn put_stores(x: &mut [f32; 2310], r: &[u8; 408]) {
    for m in 0..8 {
        store(x, word(r, 200 + 8 * m), word(r, 204 + 8 * m));
    }
}

pub fn window(r: &[u8; 408]) -> [f32; 2310] {
    let mut x = [0.0f32; 2310];
    put_noise(&mut x, word(r, 24), float_of(word(r, 28)));
    for part in 0..2 {
        put_part(&mut x, r, part);
    }
    scale(&mut x, float_of(word(r, 32)));
    blank(&mut x, word(r, 184), word(r, 188));
    blank(&mut x, word(r, 192), word(r, 196));
    put_stores(&mut x, r);
    x
}
