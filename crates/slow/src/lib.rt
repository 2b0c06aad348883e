// The repair that anyone can read. Positions of the message are turned over: none, then each in turn, then each pair in order. After each
// choice the message is divided, and the first that leaves the remainder 0 is the answer. Nothing is looked up.
#![tactic(auto)]

ghost use Rattle.std.specs.Prelude.{◌≡◌, true, ◌*◌, ◌<◌, ◌≤◌, eqb, length};
ghost use Rattle.refusals.specs.Refusals.{told};
ghost use Rattle.annex10.specs.declared.Repairs.TheVariants.{Two};
ghost use Rattle.annex10.specs.Length.{message_length};
ghost use Rattle.annex10.specs.Remainder.{remainder};
ghost use Rattle.annex10.specs.Repair.{inside, repaired, seek, choose};
ghost use Rattle.annex10.specs.Mend.{tried, mended, repair_of};

use annex10::{Found, Repairs};
use mode_s::crc::crc24;
use mode_s::repair::correct_message_bit_errors;
use refusals::Refusal;

// Whether the message, with the positions turned over, has the remainder 0.
#[tactic(auto, using(annex10::proofs::Length::message_small))]
fn clears(message: &[u8], repairs: Repairs) -> bool
    requires { (message_length (length message.now) ≡ true) × (inside (length message.now) repairs ≡ true) }
    ensures { result ≡ eqb (remainder (repaired message.now repairs)) 0 }
{
    let mut bytes = [0; 14];
    let own = &mut bytes[..message.len()];
    own.copy_from_slice(message);
    let _ = correct_message_bit_errors(own, repairs);
    crc24(own) == 0
}

// Each position in turn.
#[tactic(auto, using(annex10::proofs::Length::message_small), unfolding(annex10::specs::Repair::choose, annex10::specs::Repair::seek))]
fn one(message: &[u8]) -> Found
    requires { message_length (length message.now) ≡ true }
    ensures { result ≡ choose (tried message.now) (length message.now) 1 }
{
    for j in 0..8 * message.len() {
        let repairs = Repairs::One(j as u8);
        if clears(message, repairs) {
            return Found::At(repairs);
        }
    }
    Found::Nothing
}

// Each position before k, together with k.
#[tactic(auto, using(annex10::proofs::Length::message_small), unfolding(annex10::specs::Repair::choose, annex10::specs::Repair::seek))]
fn two_with(message: &[u8], k: usize) -> Found
    requires { (message_length (length message.now) ≡ true) × (k < 8 * length message.now) }
    ensures { result ≡ seek (λ j. tried message.now (Two j k)) k }
{
    for j in 0..k {
        let repairs = Repairs::Two(j as u8, k as u8);
        if clears(message, repairs) {
            return Found::At(repairs);
        }
    }
    Found::Nothing
}

// Each pair in order: 0 and 1, 0 and 2, 1 and 2, 0 and 3, and so on.
#[tactic(auto, using(annex10::proofs::Length::message_small), unfolding(annex10::specs::Repair::choose, annex10::specs::Repair::seek))]
fn two(message: &[u8]) -> Found
    requires { message_length (length message.now) ≡ true }
    ensures { result ≡ choose (tried message.now) (length message.now) 2 }
{
    for k in 0..8 * message.len() {
        if let Found::At(repairs) = two_with(message, k) {
            return Found::At(repairs);
        }
    }
    Found::Nothing
}

// The fewest positions, at most `level`.
fn fewest(level: u32, message: &[u8]) -> Found
    requires { (message_length (length message.now) ≡ true) × (level ≤ 2) }
    ensures { result ≡ mended level message.now }
{
    if crc24(message) == 0 {
        return Found::At(Repairs::None);
    }
    if level == 0 {
        return Found::Nothing;
    }
    match one(message) {
        Found::At(repairs) => Found::At(repairs),
        Found::Nothing if level == 2 => two(message),
        Found::Nothing => Found::Nothing,
    }
}

// The fewest positions, at most `level`, that clear a message of 14 bytes, by trial. Refused: 2 another length, 4 a level above 2.
#[tactic(auto, unfolding(annex10::specs::Mend::repair_of, annex10::specs::Length::message_length))]
pub fn repair_slowly(level: u32, message: &[u8]) -> Result<Found, Refusal>
    ensures { told result ≡ repair_of 14 2 level message.now }
{
    if message.len() != 14 {
        return Err(Refusal::Input);
    }
    if level > 2 {
        return Err(Refusal::Level);
    }
    Ok(fewest(level, message))
}

// Of 7 bytes: at most one position, at any level above 0.
#[tactic(auto, unfolding(annex10::specs::Mend::repair_of, annex10::specs::Length::message_length))]
pub fn repair_slowly_short(level: u32, message: &[u8]) -> Result<Found, Refusal>
    ensures { told result ≡ repair_of 7 1 level message.now }
{
    if message.len() != 7 {
        return Err(Refusal::Input);
    }
    if level > 2 {
        return Err(Refusal::Level);
    }
    Ok(fewest(level.min(1), message))
}
