// Bits of a string of bytes from any bit on.
ghost use Rattle.std.specs.Prelude.{◌≡◌, ◌+◌, ◌*◌, ◌<◌, ◌≤◌, length};
ghost use Rattle.lists.specs.Bits.{bit_at, value};
ghost use Rattle.streams.specs.Streams.{message_at};

// The eight bits from bit j on.
pub fn byte_at(bytes: &[u8], j: usize) -> u8
    requires { j + 7 < 8 * length bytes.now }
    ensures { result ≡ value (bit_at bytes.now) j 8 }
{
    let n = j / 8;
    let o = j % 8;
    if o == 0 {
        bytes[n]
    } else {
        (bytes[n] << o) | (bytes[n + 1] >> (8 - o))
    }
}

// N bytes from a bit offset on.
pub fn message_at<const N: usize>(bytes: &[u8], offset: usize) -> [u8; N]
    requires { (offset + 8 * N ≤ 8 * length bytes.now) × (length bytes.now ≤ 18) }
    ensures { result ≡ message_at bytes.now N offset }
{
    let mut message = [0u8; N];
    for (k, byte) in message.iter_mut().enumerate() {
        *byte = byte_at(bytes, offset + 8 * k);
    }
    message
}
