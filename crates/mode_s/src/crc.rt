// The CRC-24 of Mode S.
ghost use Rattle.std.specs.Prelude.{◌≡◌};
ghost use Rattle.annex10.specs.Remainder.{remainder};

use annex10::division::bring_byte;

// The remainder of a string of bytes of any length.
pub fn crc24(bytes: &[u8]) -> u32
    ensures { result ≡ remainder bytes.now }
{
    bytes.iter().fold(0, |crc, &byte| bring_byte(crc, byte))
}
