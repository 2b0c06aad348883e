// A byte of the division by shifts and xors, without a table.
ghost use Rattle.std.specs.Prelude.{◌≡◌, [], ◌∷◌, ◌<◌};
ghost use Rattle.annex10.specs.Remainder.{remainder};
ghost use Rattle.annex10.specs.Bytes.{bring_byte};

// The remainder of one byte. The generator's terms x^23 to x^12 stand in a row: times x + 1 they are two, so what a byte adds is a few
// shifts of the byte and of the byte times x + 1. Where the byte is odd the row itself is added, as the difference of two powers.
fn byte_crc24(b: u32) -> u32
    requires { b < 256 }
    ensures { result ≡ remainder (b ∷ []) }
{
    let q = b ^ (b >> 1);
    let odd = b & 1;
    (b << 11) ^ ((odd << 24) - (odd << 11)) ^ (q << 3) ^ (q << 10) ^ q
}

// Eight steps of the division. A remainder has 24 bits, and what stands above them is not looked at.
pub fn bring_byte(crc: u32, byte: u8) -> u32
    ensures { result ≡ bring_byte crc byte }
{
    ((crc & 0xffff) << 8) ^ byte_crc24(((crc >> 16) & 0xff) ^ (byte as u32))
}
