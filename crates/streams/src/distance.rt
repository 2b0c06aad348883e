// In how many bits the messages of two streams differ.
ghost use Rattle.std.specs.Prelude.{◌≡◌, ◌+◌, ◌*◌, ◌≤◌, length};
ghost use Rattle.refusals.specs.Refusals.{told};
ghost use Rattle.streams.specs.Distances.{differing, distance_at};
ghost use Rattle.streams.specs.Streams.{message_at};

use crate::bits::byte_at;
use crate::checks::check_stream;
use refusals::Refusal;

// Over n bytes from a bit offset on.
fn differing_bits(a: &[u8], b: &[u8], offset: usize, n: usize) -> u32
    requires { (offset + 8 * n ≤ 8 * length a.now) × (offset + 8 * n ≤ 8 * length b.now) × (length a.now ≤ 18) }
    ensures { result ≡ differing (message_at a.now n offset) (message_at b.now n offset) (8 * n) }
{
    let mut distance = 0;
    for k in 0..n {
        let j = offset + 8 * k;
        distance += (byte_at(a, j) ^ byte_at(b, j)).count_ones();
    }
    distance
}

#[tactic(auto, using(crate::proofs::Reading::opened), unfolding(crate::specs::Distances::distance_at, crate::specs::Distances::pair_number))]
pub fn compute_hamming_distance(a: &[u8], b: &[u8], offset: usize) -> Result<u32, Refusal>
    ensures { told result ≡ distance_at a.now b.now offset }
{
    if a.len() != 18 {
        return Err(Refusal::Input);
    }
    check_stream(14, b, offset)?;
    Ok(differing_bits(a, b, offset, 14))
}
