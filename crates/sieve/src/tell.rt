// What clears the remainders that were let through.
ghost use Rattle.std.specs.Prelude.{◌≡◌, ◌≤◌, length};
ghost use Rattle.annex10.specs.Length.{message_bytes, most_repairs};
ghost use Rattle.repairs.specs.Codes.{code_up_to, codes_up_to};

use crate::loan::Lent;
use annex10::MessageKind;
use repairs::named::bit_errors_named;
use repairs::rows::bit_errors_from_crc24s;

// By what a lent hash names. Both slicers often have the same bits: the code of an equal remainder is that of the one before it. 0 is
// cleared by no position: it stands before the first.
#[tactic(auto, using(crate::proofs::Picking::named_done))]
fn codes_lent(kind: MessageKind, level: u32, lent: &Lent, crcs: &[u32], codes: &mut [u32])
    requires { (level ≤ most_repairs kind) × (length codes.old ≡ length crcs.now) }
    ensures { codes.new ≡ codes_up_to (message_bytes kind) level crcs.now }
{
    let mut last = 0;
    let mut code = 0xffff;
    for (i, &crc) in crcs.iter().enumerate() {
        if crc != last {
            last = crc;
            code = bit_errors_named(kind, level, lent.name(level, crc), crc);
        }
        codes[i] = code;
    }
}

// By a lent hash, or by the sorted tables where nothing is lent.
pub fn tell(kind: MessageKind, level: u32, lent: Option<Lent>, crcs: &[u32], codes: &mut [u32])
    requires { (level ≤ most_repairs kind) × (length codes.old ≡ length crcs.now) }
    ensures { codes.new ≡ codes_up_to (message_bytes kind) level crcs.now }
{
    match lent {
        Some(lent) => codes_lent(kind, level, &lent, crcs, codes),
        None => {
            let _ = bit_errors_from_crc24s(kind, level, crcs, codes);
        }
    }
}
