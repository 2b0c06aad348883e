// An answer in rows of lent memory. Refused: 3 memory of another length, which is left as it was.
#![tactic(auto)]

pub mod row;

ghost use Rattle.std.specs.Prelude.{◌≡◌};
ghost use Rattle.refusals.specs.Refusals.{told_number};
ghost use Rattle.rows.specs.Rows.{fields_into, result_into};

use crate::row::words_of;
use annex10::is_message;
use refusals::Refusal;
use search::Answer;

// A message, ten whole numbers and two floats.
#[tactic(auto, unfolding(crate::specs::Rows::fields_into))]
pub fn put_fields(
    found: &[u8],
    row: [u64; 10],
    pair: [f32; 2],
    message: &mut [u8],
    words: &mut [u64],
    floats: &mut [f32],
) -> Result<(), Refusal>
    ensures { (told_number result, message.new, words.new, floats.new) ≡ fields_into found.now row pair (message.old, words.old, floats.old) }
{
    if message.len() != found.len() || words.len() != 10 || floats.len() != 2 {
        return Err(Refusal::Output);
    }
    message.copy_from_slice(found);
    words.copy_from_slice(&row);
    floats.copy_from_slice(&pair);
    Ok(())
}

// An answer: the first 7 bytes of its message or all 14, as many as are lent; its ten whole numbers and its number; its two floats.
#[tactic(auto, using(annex10::proofs::Length::message_small), unfolding(crate::specs::Rows::result_into))]
pub fn put_result(
    a: Answer,
    message: &mut [u8],
    words: &mut [u64],
    floats: &mut [f32],
) -> Result<(), Refusal>
    ensures { (told_number result, message.new, words.new, floats.new) ≡ result_into a (message.old, words.old, floats.old) }
{
    let bytes = message.len();
    if !is_message(bytes) || words.len() != 11 || floats.len() != 2 {
        return Err(Refusal::Output);
    }
    message.copy_from_slice(&a.message[..bytes]);
    words[..10].copy_from_slice(&words_of(a.index, a.location, a.undecided));
    words[10] = u64::from(a.number);
    floats.copy_from_slice(&[a.cn0, a.fraction]);
    Ok(())
}
