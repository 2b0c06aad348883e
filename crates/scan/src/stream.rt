// Every eighth of the bits by starting sample, eight to a byte: the stream of a lane, and the first byte of a message.
ghost use Rattle.std.specs.Prelude.{◌≡◌, ◌<◌, length};
ghost use Rattle.refusals.specs.Refusals.{told, told_number};
ghost use Rattle.scan.specs.Lanes.{byte_from, lane_into, first_byte};

use refusals::Refusal;

// The eight bits that start with sample p, p + 8, and so on.
fn byte_from(bits: &[u8], p: usize) -> u8
    requires { (length bits.now ≡ 1152) × (p < 1096) }
    ensures { result ≡ byte_from bits.now p }
{
    let mut b = 0;
    for m in 0..8 {
        b = (b << 1) | (bits[p + 8 * m] & 1);
    }
    b
}

// The 18 bytes of a lane. Refused: 2 where there are not 1,152 bits, 3 where the output has not 18 bytes, 7 for a lane above 7.
#[tactic(auto, unfolding(crate::specs::Lanes::lane_into))]
pub fn find_stream(bits: &[u8], lane: usize, out: &mut [u8]) -> Result<(), Refusal>
    ensures { (told_number result, out.new) ≡ lane_into bits.now lane out.old }
{
    if bits.len() != 1152 {
        return Err(Refusal::Input);
    }
    if out.len() != 18 {
        return Err(Refusal::Output);
    }
    if lane > 7 {
        return Err(Refusal::Place);
    }
    for (k, byte) in out.iter_mut().enumerate() {
        *byte = byte_from(bits, 64 * k + lane);
    }
    Ok(())
}

// The first byte of the message that starts with a sample. Refused: 2 where there are not 1,152 bits, 7 where the byte would end behind them.
#[tactic(auto, unfolding(crate::specs::Lanes::first_byte))]
pub fn find_first_byte(bits: &[u8], start: usize) -> Result<u8, Refusal>
    ensures { told result ≡ first_byte bits.now start }
{
    if bits.len() != 1152 {
        return Err(Refusal::Input);
    }
    if start > 1095 {
        return Err(Refusal::Place);
    }
    Ok(byte_from(bits, start))
}
