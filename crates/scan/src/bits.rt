// The bit that starts with each sample.
ghost use Rattle.std.specs.Prelude.{◌≡◌, length};
ghost use Rattle.scan.specs.Inner.{bits_of};

// A sum against the one four samples later. The last four have none.
pub fn compare(row: &[f32], bits: &mut [u8])
    requires { (length row.now ≡ 1152) × (length bits.old ≡ 1152) }
    ensures { bits.new ≡ bits_of row.now }
{
    // By index: each bit compares two numbers of one row.
    for i in 0..1148 {
        bits[i] = u8::from(row[i] > row[i + 4]);
    }
    bits[1148..].fill(0);
}
