// Whether the message at a bit offset of a stream, repaired, is an extended squitter, or an acquisition squitter.
ghost use Rattle.std.specs.Prelude.{◌≡◌};
ghost use Rattle.refusals.specs.Refusals.{told};
ghost use Rattle.annex10.specs.Header.{long_header, short_header, listed_header};
ghost use Rattle.annex10.specs.Length.{message_bytes};
ghost use Rattle.streams.specs.Headers.{validity_at};

use crate::bits::byte_at;
use crate::checks::check_stream;
use annex10::{MessageKind, Repairs};
use mode_s::header::header_is_valid;
use refusals::Refusal;

// Whether it is one of a kind.
#[tactic(auto, using(crate::proofs::Reading::opened, crate::proofs::Reading::message_head), unfolding(crate::specs::Headers::validity_at))]
fn df_is_valid(
    kind: MessageKind,
    bytes: &[u8],
    offset: usize,
    repairs: Repairs,
) -> Result<bool, Refusal>
    ensures { told result ≡ validity_at (message_bytes kind) (listed_header kind) bytes.now offset repairs }
{
    check_stream(kind.bytes(), bytes, offset)?;
    header_is_valid(kind, byte_at(bytes, offset), repairs)
}

pub fn df_is_valid_extended_squitter(
    bytes: &[u8],
    offset: usize,
    repairs: Repairs,
) -> Result<bool, Refusal>
    ensures { told result ≡ validity_at 14 long_header bytes.now offset repairs }
{
    df_is_valid(MessageKind::Long, bytes, offset, repairs)
}

pub fn df_is_valid_acquisition_squitter(
    bytes: &[u8],
    offset: usize,
    repairs: Repairs,
) -> Result<bool, Refusal>
    ensures { told result ≡ validity_at 7 short_header bytes.now offset repairs }
{
    df_is_valid(MessageKind::Short, bytes, offset, repairs)
}
