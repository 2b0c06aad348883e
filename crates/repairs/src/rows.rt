// The same for many remainders at once, as codes. Those of 7 bytes come of those of 14.
ghost use Rattle.std.specs.Prelude.{◌≡◌, ℕ, ◌≤◌, length, MatchResult};
ghost use Rattle.annex10.specs.Length.{message_bytes, most_repairs};
ghost use Rattle.refusals.specs.Refusals.{number, told_number};
ghost use Rattle.repairs.specs.Codes.{codes_up_to, codes_up_to_into};

use crate::codes::shorten;
use crate::fewest::fewest;
use annex10::MessageKind;
use annex10::codes::code_of;
use refusals::Refusal;

// As many codes as remainders, and no level above 2.
#[tactic(auto, unfolding(crate::specs::Codes::codes_up_to_into))]
fn check(level: u32, crcs: &[u32], codes: &[u32]) -> Result<(), Refusal>
    ensures { MatchResult result (λ _. (level ≤ 2) × (length codes.now ≡ length crcs.now)) (λ refusal. (bytes most : ℕ) → (number refusal, codes.now) ≡ codes_up_to_into bytes most level crcs.now codes.now) }
{
    if codes.len() != crcs.len() {
        return Err(Refusal::Output);
    }
    if level > 2 {
        return Err(Refusal::Level);
    }
    Ok(())
}

// With at most `level` positions of 14 bytes. Both slicers often have the same bits: the code of an equal remainder is that of the one
// before it. 0 is cleared by no position: it stands before the first.
fn find_codes(level: u32, crcs: &[u32], codes: &mut [u32])
    requires { (level ≤ 2) × (length codes.old ≡ length crcs.now) }
    ensures { codes.new ≡ codes_up_to 14 level crcs.now }
{
    let mut last = 0;
    let mut code = 0xffff;
    for (i, &crc) in crcs.iter().enumerate() {
        if crc != last {
            last = crc;
            code = code_of(fewest(level, crc));
        }
        codes[i] = code;
    }
}

// For each remainder the fewest positions of a message, at most `level` and no more than its kind allows, as a code. Refused: not as many
// codes as remainders, a level above 2.
#[tactic(auto, using(crate::proofs::Coding::short_codes_law), unfolding(crate::specs::Codes::codes_up_to_into))]
pub fn bit_errors_from_crc24s(
    kind: MessageKind,
    level: u32,
    crcs: &[u32],
    codes: &mut [u32],
) -> Result<(), Refusal>
    ensures { (told_number result, codes.new) ≡ codes_up_to_into (message_bytes kind) (most_repairs kind) level crcs.now codes.old }
{
    check(level, crcs, codes)?;
    find_codes(level.min(kind.most()), crcs, codes);
    match kind {
        MessageKind::Short => shorten(codes),
        MessageKind::Long => {}
    }
    Ok(())
}
