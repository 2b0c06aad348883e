// What the slicers compare, one for each sample that a sum of four can start with.
ghost use Rattle.std.specs.Prelude.{◌≡◌, length};
ghost use Rattle.scan.specs.Inner.{reals_of, norms_of};

// The real part and the norm of each sum.
pub fn find_rows(sums: &[f32], reals: &mut [f32], norms: &mut [f32])
    requires { (length sums.now ≡ 2304) × (length reals.old ≡ 1152) × (length norms.old ≡ 1152) }
    ensures { (reals.new ≡ reals_of sums.now) × (norms.new ≡ norms_of sums.now) }
{
    // By index: two arrays are written from pairs of a third.
    for i in 0..1152 {
        let re = sums[2 * i];
        let im = sums[2 * i + 1];
        reals[i] = re;
        norms[i] = re * re + im * im;
    }
}
