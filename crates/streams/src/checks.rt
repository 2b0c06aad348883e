// What every call at a bit offset of a stream refuses.
ghost use Rattle.std.specs.Prelude.{◌≡◌, ◌≤◌};
ghost use Rattle.refusals.specs.Refusals.{told, told_number};
ghost use Rattle.streams.specs.Streams.{stream_number, sized_number};

use refusals::Refusal;

// For a message of n bytes.
#[tactic(auto, unfolding(crate::specs::Streams::stream_number))]
pub fn check_stream(n: usize, bytes: &[u8], offset: usize) -> Result<(), Refusal>
    requires { n ≤ 18 }
    ensures { told_number result ≡ stream_number n bytes.now offset }
{
    if bytes.len() != 18 {
        return Err(Refusal::Input);
    }
    if offset > 144 - 8 * n { // a message from the next bit on would end behind the stream
        return Err(Refusal::Place);
    }
    Ok(())
}

// What a call at a part of a stream refuses, from the size that the part has to have.
pub fn check_part(size: Result<usize, Refusal>, part: &[u8]) -> Result<(), Refusal>
    ensures { told_number result ≡ sized_number (told size) part.now }
{
    if part.len() != size? {
        return Err(Refusal::Input);
    }
    Ok(())
}
