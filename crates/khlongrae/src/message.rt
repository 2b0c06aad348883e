// A message: its line and its remainder.
ghost use Rattle.std.specs.Prelude.{◌≡◌};
ghost use Rattle.annex10.specs.Remainder.{remainder};
ghost use Rattle.mode_s.specs.Avr.{avr_line};

use mode_s::avr::format_avr;
use mode_s::crc::crc24;
use refusals::number_of;

// Answers number 0 and writes the AVR line of a message of 7 or 14 bytes. Refused: 2 another length, 3 a line of another length.
pub fn khlongrae_avr(message: &[u8], line: &mut [u8]) -> u32
    ensures { (result, line.new) ≡ avr_line message.now line.old }
{
    number_of(format_avr(message, line))
}

// The remainder of a string of bytes of any length.
pub fn khlongrae_remainder(bytes: &[u8]) -> u32
    ensures { result ≡ remainder bytes.now }
{
    crc24(bytes)
}
