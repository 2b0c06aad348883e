// The remainders of all messages, each from the one eight samples before it: number i is that of the message that starts with sample 8 + i.
ghost use Rattle.std.specs.Prelude.{◌≡◌, ◌*◌, ◌^◌, ◌<◌};
ghost use Rattle.lists.proofs.Table.{Done};
ghost use Rattle.scan.specs.Flat.{crc_in, crcs_in};
ghost use Rattle.scan.specs.Inner.{Digits, Span, leaving_power, next};

// All bits of a word, or none.
fn mask(bit: u32) -> u32
    requires { bit < 2 }
    ensures { result ≡ bit * 0xffffffff }
{
    bit.wrapping_neg()
}

// A remainder one bit on: times x, plus the bit that enters times x^24, plus the bit that leaves times a lent power.
fn roll(power: u32, crc: u32, leaving: u8, entering: u8) -> u32
    requires { (crc < 2 ^ 24) × (leaving < 2) × (entering < 2) }
    ensures { result ≡ next power crc leaving entering }
{
    let twice = (crc << 1) ^ (mask(crc >> 23) & 0x1fff409);
    twice ^ (mask(u32::from(entering)) & 0xfff409) ^ (mask(u32::from(leaving)) & power)
}

// All rows behind the first, of both slicers, for messages of n bytes: the steps of one slicer do not wait for those of the other. The
// power is x^(8 n + 24), with which a bit leaves.
pub fn roll_rows(
    n: usize,
    many: usize,
    power: u32,
    coherent: &[u8],
    noncoherent: &[u8],
    crcs: &mut [u32],
    others: &mut [u32],
)
    requires { Span n many × (power ≡ leaving_power n) × Digits coherent.now × Digits noncoherent.now × Done 0 (crc_in n coherent.now) many crcs.old 8 × Done 0 (crc_in n noncoherent.now) many others.old 8 }
    ensures { (crcs.new ≡ crcs_in n coherent.now many) × (others.new ≡ crcs_in n noncoherent.now many) }
{
    // By index: each number is made of the one eight before it.
    for i in 0..many - 8 {
        crcs[i + 8] = roll(power, crcs[i], coherent[i + 8], coherent[i + 8 + 64 * n]);
        others[i + 8] = roll(
            power,
            others[i],
            noncoherent[i + 8],
            noncoherent[i + 8 + 64 * n],
        );
    }
}
