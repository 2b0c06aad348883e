// The remainder of the message at a bit offset of a stream.
ghost use Rattle.std.specs.Prelude.{◌≡◌, ◌≤◌};
ghost use Rattle.annex10.specs.Length.{message_bytes};
ghost use Rattle.refusals.specs.Refusals.{told};
ghost use Rattle.streams.specs.Remainders.{crc_at};

use crate::message::extract;
use annex10::MessageKind;
use mode_s::crc::crc24;
use refusals::Refusal;

// Of N bytes.
#[tactic(auto, unfolding(crate::specs::Remainders::crc_at, crate::specs::Messages::extracted))]
fn crc_of<const N: usize>(bytes: &[u8], offset: usize) -> Result<u32, Refusal>
    requires { N ≤ 18 }
    ensures { told result ≡ crc_at N bytes.now offset }
{
    let message: [u8; N] = extract(bytes, offset)?;
    Ok(crc24(&message))
}

pub fn compute_crc(kind: MessageKind, bytes: &[u8], offset: usize) -> Result<u32, Refusal>
    ensures { told result ≡ crc_at (message_bytes kind) bytes.now offset }
{
    match kind {
        MessageKind::Short => crc_of::<7>(bytes, offset),
        MessageKind::Long => crc_of::<14>(bytes, offset),
    }
}
