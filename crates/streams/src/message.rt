// The message at a bit offset of a stream.
ghost use Rattle.std.specs.Prelude.{◌≡◌, ◌≤◌};
ghost use Rattle.refusals.specs.Refusals.{told};
ghost use Rattle.parts.specs.Part.{size_at};
ghost use Rattle.streams.specs.Messages.{extracted, part_message};

use crate::bits::message_at;
use crate::checks::{check_part, check_stream};
use annex10::MessageKind;
use parts::part_size;
use refusals::Refusal;

// Of N bytes.
#[tactic(auto, using(crate::proofs::Reading::opened), unfolding(crate::specs::Messages::extracted))]
pub(crate) fn extract<const N: usize>(bytes: &[u8], offset: usize) -> Result<[u8; N], Refusal>
    requires { N ≤ 18 }
    ensures { told result ≡ extracted N bytes.now offset }
{
    check_stream(N, bytes, offset)?;
    Ok(message_at(bytes, offset))
}

pub fn extract_message(bytes: &[u8], offset: usize) -> Result<[u8; 14], Refusal>
    ensures { told result ≡ extracted 14 bytes.now offset }
{
    extract(bytes, offset)
}

pub fn extract_message_short(bytes: &[u8], offset: usize) -> Result<[u8; 7], Refusal>
    ensures { told result ≡ extracted 7 bytes.now offset }
{
    extract(bytes, offset)
}

// The same of a part of a stream, which has that size.
#[tactic(auto, using(crate::proofs::Parting::parting), unfolding(crate::specs::Messages::part_message, crate::specs::Streams::part_number))]
fn extract_part<const N: usize>(
    size: Result<usize, Refusal>,
    part: &[u8],
    offset: usize,
) -> Result<[u8; N], Refusal>
    requires { (N ≤ 17) × (told size ≡ size_at N offset) }
    ensures { told result ≡ part_message N part.now offset }
{
    check_part(size, part)?;
    Ok(message_at(part, offset % 8))
}

// The part: the 14 bytes in which the message lies, or 15 where its bit offset is no multiple of 8.
pub fn message_from_part(part: &[u8], offset: usize) -> Result<[u8; 14], Refusal>
    ensures { told result ≡ part_message 14 part.now offset }
{
    extract_part(part_size(MessageKind::Long, offset), part, offset)
}

// 7 bytes, or 8.
pub fn message_from_part_short(part: &[u8], offset: usize) -> Result<[u8; 7], Refusal>
    ensures { told result ≡ part_message 7 part.now offset }
{
    extract_part(part_size(MessageKind::Short, offset), part, offset)
}
