// What came of what was asked: the places that are kept, with their codes.
ghost use Rattle.std.specs.Prelude.{◌≡◌, ◌+◌, ◌*◌, ◌<◌, ◌≤◌, length};
ghost use Rattle.sieve.specs.Inner.{taken, kept_in};

// Whether a code of at least one position came for a place.
#[tactic(auto, unfolding(crate::specs::Inner::taken))]
fn is_taken(told: &[u32], m: usize) -> bool
    requires { (m ≤ 695) × (2 * m + 1 < length told.now) }
    ensures { result ≡ taken told.now m }
{
    told[2 * m] < 65535 || told[2 * m + 1] < 65535
}

// Those of the first places, with their codes, at the front of what is lent. Behind them nothing changes.
pub fn keep(
    through: &[u16],
    told: &[u32],
    count: usize,
    list: &mut [u16],
    codes: &mut [u32],
) -> usize
    requires { (count ≤ 696) × (count ≤ length through.now) × (2 * count ≤ length told.now) × (count ≤ length list.old) × (2 * count ≤ length codes.old) }
    ensures { (result, list.new, codes.new) ≡ kept_in through.now told.now count list.old codes.old }
{
    let mut kept = 0;
    // By index: two codes for each place.
    for m in 0..count {
        if is_taken(told, m) {
            list[kept] = through[m];
            codes[2 * kept] = told[2 * m];
            codes[2 * kept + 1] = told[2 * m + 1];
            kept += 1;
        }
    }
    kept
}
