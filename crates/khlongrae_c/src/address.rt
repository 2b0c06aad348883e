// Whose address a message has.
ghost use Rattle.std.specs.Prelude.{◌≡◌};
ghost use Rattle.annex10.specs.Address.{address_kind};
ghost use Rattle.khlongrae.specs.Addresses.{kind_code};

#[unsafe(no_mangle)]
pub extern "C" fn khlongrae_address_kind(first: u8) -> u32
    ensures { result ≡ kind_code (address_kind first) }
{
    khlongrae::address::khlongrae_address_kind(first)
}
