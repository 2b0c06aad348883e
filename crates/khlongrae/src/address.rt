// Whose address a message has.
ghost use Rattle.std.specs.Prelude.{◌≡◌};
ghost use Rattle.annex10.specs.Address.{address_kind};
ghost use Rattle.khlongrae.specs.Addresses.{kind_code};

use annex10::AddressKind;
use mode_s::header::address_kind;

// What the three bytes behind a first byte are: 1 an ICAO address, 2 one of another kind, 3 one of which a flag inside the message tells
// the kind, 0 none. The byte is taken as it is after the repairs.
pub fn khlongrae_address_kind(first: u8) -> u32
    ensures { result ≡ kind_code (address_kind first) }
{
    match address_kind(first) {
        AddressKind::Icao => 1,
        AddressKind::Other => 2,
        AddressKind::Flagged => 3,
        AddressKind::NoAddress => 0,
    }
}
