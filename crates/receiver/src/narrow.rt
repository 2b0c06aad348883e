// Answers for short messages: within, a message of either kind has room for 14 bytes.
ghost use Rattle.std.specs.Prelude.{◌≡◌, take};
ghost use Rattle.search.specs.Short.{short_candidate, short_answer};
ghost use Rattle.receiver.specs.Inner.{cut_candidate, cut_held, cut_answer};

use search::{Answer, Candidate, ShortAnswer, ShortCandidate};

// The first seven bytes.
fn narrow(message: [u8; 14]) -> [u8; 7]
    ensures { result ≡ take 7 message }
{
    let mut bytes = [0; 7];
    bytes.copy_from_slice(&message[..7]);
    bytes
}

fn narrow_candidate(c: Candidate) -> ShortCandidate
    ensures { result ≡ short_candidate (cut_candidate c) }
{
    ShortCandidate {
        location: c.location,
        message: narrow(c.message),
        prompt: c.prompt,
        cn0: c.cn0,
        undecided: c.undecided,
    }
}

pub fn narrow_held(held: Option<Candidate>) -> Option<ShortCandidate>
    ensures { result ≡ cut_held held }
{
    held.map(narrow_candidate)
}

pub fn narrow_answer(a: Answer) -> ShortAnswer
    ensures { result ≡ short_answer (cut_answer a) }
{
    ShortAnswer {
        number: a.number,
        location: a.location,
        message: narrow(a.message),
        cn0: a.cn0,
        index: a.index,
        fraction: a.fraction,
        undecided: a.undecided,
    }
}
