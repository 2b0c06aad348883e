// A message as an AVR line: `*`, its capital hex digits, `;`.
ghost use Rattle.std.specs.Prelude.{◌≡◌, ◌+◌, ◌*◌, ◌/◌, ◌%◌, ◌<◌, length};
ghost use Rattle.refusals.specs.Refusals.{told_number};
ghost use Rattle.mode_s.specs.Avr.{hex_digit, avr_line};
ghost use Rattle.mode_s.specs.Inner.{avr_byte};

use annex10::is_message;
use refusals::Refusal;

// A number below 16 as a capital hex digit.
#[tactic(auto, unfolding(crate::specs::Avr::hex_digit))]
fn digit(n: u8) -> u8
    requires { n < 16 }
    ensures { result ≡ hex_digit n }
{
    if n < 10 { b'0' + n } else { b'A' + (n - 10) }
}

// The two digits of a byte.
pub fn high_digit(b: u8) -> u8
    ensures { result ≡ hex_digit (b / 16) }
{
    digit(b / 16)
}

pub fn low_digit(b: u8) -> u8
    ensures { result ≡ hex_digit (b % 16) }
{
    digit(b % 16)
}

// Byte i of the line.
#[tactic(auto, using(crate::proofs::Text::avr_star, crate::proofs::Text::avr_end, crate::proofs::Text::avr_high, crate::proofs::Text::avr_low))]
fn avr_byte(message: &[u8], i: usize) -> u8
    requires { i < 2 * length message.now + 2 }
    ensures { result ≡ avr_byte message.now i }
{
    if i == 0 {
        return b'*';
    }
    let k = (i - 1) / 2;
    if k == message.len() {
        b';'
    } else if i % 2 == 1 {
        high_digit(message[k])
    } else {
        low_digit(message[k])
    }
}

// Writes the line of a message of 7 or 14 bytes. Refused: 2 another length, 3 an output that is not exactly as long as the line.
#[tactic(auto, using(annex10::proofs::Length::message_small), unfolding(crate::specs::Avr::avr_line))]
pub fn format_avr(message: &[u8], out: &mut [u8]) -> Result<(), Refusal>
    ensures { (told_number result, out.new) ≡ avr_line message.now out.old }
{
    if !is_message(message.len()) {
        return Err(Refusal::Input);
    }
    if out.len() != 2 * message.len() + 2 {
        return Err(Refusal::Output);
    }
    for (i, place) in out.iter_mut().enumerate() {
        *place = avr_byte(message, i);
    }
    Ok(())
}
