// A message repaired in place.
ghost use Rattle.std.specs.Prelude.{◌≡◌};
ghost use Rattle.annex10.specs.Flip.{flip};
ghost use Rattle.annex10.specs.Repair.{repaired};
ghost use Rattle.refusals.specs.Refusals.{told_number};
ghost use Rattle.mode_s.specs.Corrected.{corrected};

use annex10::{Repairs, is_message, lie_inside};
use refusals::Refusal;

// Turns the bit at position j over, if it lies in the message.
#[tactic(auto, using(crate::proofs::Bit::shifted, crate::proofs::Bit::set_out), unfolding(annex10::specs::Flip::flip))]
fn turn(message: &mut [u8], j: u8)
    ensures { message.new ≡ flip message.old j }
{
    let p = usize::from(j / 8);
    if p < message.len() {
        message[p] ^= 1 << (7 - j % 8);
    }
}

#[tactic(auto, unfolding(annex10::specs::Repair::repaired))]
pub(crate) fn turn_all(message: &mut [u8], repairs: Repairs)
    ensures { message.new ≡ repaired message.old repairs }
{
    match repairs {
        Repairs::None => {}
        Repairs::One(j) => turn(message, j),
        Repairs::Two(j, k) => {
            turn(message, j);
            turn(message, k);
        }
    }
}

// Turns the named positions of a message of 7 or 14 bytes over. Refused: 2 another length, 8 a position outside the message: above 55,
// above 111.
#[tactic(auto, unfolding(crate::specs::Corrected::corrected))]
pub fn correct_message_bit_errors(message: &mut [u8], repairs: Repairs) -> Result<(), Refusal>
    ensures { (told_number result, message.new) ≡ corrected repairs message.old }
{
    if !is_message(message.len()) {
        return Err(Refusal::Input);
    }
    if !lie_inside(message.len(), repairs) {
        return Err(Refusal::Position);
    }
    turn_all(message, repairs);
    Ok(())
}
