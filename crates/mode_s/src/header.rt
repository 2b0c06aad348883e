// The header of a message: its first byte, with the repairs that fall into it, and whose address follows it.
ghost use Rattle.std.specs.Prelude.{◌≡◌};
ghost use Rattle.refusals.specs.Refusals.{told};
ghost use Rattle.annex10.specs.Address.{by_capability, by_control, address_kind};
ghost use Rattle.annex10.specs.Header.{listed_header};
ghost use Rattle.annex10.specs.Length.{message_bytes};
ghost use Rattle.annex10.specs.Repair.{repaired_head};
ghost use Rattle.mode_s.specs.Header.{header_of};

use crate::repair::turn_all;
use annex10::{AddressKind, MessageKind, Repairs, lie_inside};
use refusals::Refusal;

// Whether a first byte is that of an acquisition squitter, for short messages, or of an extended squitter.
#[tactic(auto, unfolding(annex10::specs::Header::short_header, annex10::specs::Header::long_header, annex10::specs::Header::one_of))]
fn is_listed(kind: MessageKind, first: u8) -> bool
    ensures { result ≡ listed_header kind first }
{
    let header = (first / 8, first % 8);
    match kind {
        MessageKind::Short => matches!(header, (11, 0 | 4..=7)),
        MessageKind::Long => matches!(header, (17, 0 | 4..=7) | (18, 0 | 2..=6)),
    }
}

// The first byte after the repairs: those behind it turn nothing over.
#[tactic(auto, unfolding(annex10::specs::Repair::repaired_head))]
fn head(first: u8, repairs: Repairs) -> u8
    ensures { result ≡ repaired_head first repairs }
{
    let mut head = [first];
    turn_all(&mut head, repairs);
    head[0]
}

// Whether the first byte of a message, repaired, is one of its kind. Refused: 8 a position outside the message, above 55 or above 111.
#[tactic(auto, unfolding(crate::specs::Header::header_of))]
pub fn header_is_valid(kind: MessageKind, first: u8, repairs: Repairs) -> Result<bool, Refusal>
    ensures { told result ≡ header_of (message_bytes kind) (listed_header kind) first repairs }
{
    if !lie_inside(kind.bytes(), repairs) {
        return Err(Refusal::Position);
    }
    Ok(is_listed(kind, head(first, repairs)))
}

#[tactic(auto, unfolding(annex10::specs::Address::by_capability, annex10::specs::Header::one_of))]
fn by_capability(code: u8) -> AddressKind
    ensures { result ≡ by_capability code }
{
    match code {
        0 | 4..=7 => AddressKind::Icao,
        _ => AddressKind::NoAddress,
    }
}

#[tactic(auto, unfolding(annex10::specs::Address::by_control, annex10::specs::Header::one_of))]
fn by_control(code: u8) -> AddressKind
    ensures { result ≡ by_control code }
{
    match code {
        0 => AddressKind::Icao,
        2 | 3 | 6 => AddressKind::Flagged,
        5 => AddressKind::Other,
        _ => AddressKind::NoAddress,
    }
}

// What the three bytes behind a first byte are. The byte is taken as it is after the repairs.
#[tactic(auto, unfolding(annex10::specs::Address::address_kind))]
pub fn address_kind(first: u8) -> AddressKind
    ensures { result ≡ address_kind first }
{
    match first / 8 {
        11 | 17 => by_capability(first % 8),
        18 => by_control(first % 8),
        _ => AddressKind::NoAddress,
    }
}
