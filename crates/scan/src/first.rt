// The remainders at the first bit offset, byte by byte: eight messages side by side.
ghost use Rattle.std.specs.Prelude.{◌<◌, ◌≤◌, length};
ghost use Rattle.lists.proofs.Table.{Done};
ghost use Rattle.scan.specs.Flat.{crc_in};
ghost use Rattle.scan.specs.Inner.{Digits, byte_in};

use annex10::division::bring_byte;

// Byte i of the messages that start with samples 8 to 15. Bits of one number lie side by side, so the inner loop takes all eight at once.
fn bytes_at(i: usize, bits: &[u8]) -> [u8; 8]
    requires { (i < 14) × Digits bits.now }
    ensures { Done 0 (byte_in i 8 bits.now) 8 result 8 }
{
    let mut bytes = [0u8; 8];
    for j in 0..8 {
        for (t, byte) in bytes.iter_mut().enumerate() {
            *byte = (*byte << 1) | bits[64 * i + 8 * j + 8 + t];
        }
    }
    bytes
}

// The remainders of the messages of n bytes that start with samples 8 to 15.
pub fn first_row(n: usize, bits: &[u8], crcs: &mut [u32])
    requires { (n ≤ 14) × Digits bits.now × (8 ≤ length crcs.old) }
    ensures { Done 0 (crc_in n bits.now) (length crcs.old) crcs.new 8 }
{
    let mut row = [0u32; 8];
    for i in 0..n {
        let bytes = bytes_at(i, bits);
        for (t, crc) in row.iter_mut().enumerate() {
            *crc = bring_byte(*crc, bytes[t]);
        }
    }
    // One by one: a copy of the slice at once would keep the lanes above from being done side by side.
    for (t, crc) in row.iter().enumerate() {
        crcs[t] = *crc;
    }
}
