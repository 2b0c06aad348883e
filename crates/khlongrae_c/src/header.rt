// The header check of a first byte with its repairs.
ghost use Rattle.std.specs.Prelude.{◌≡◌};
ghost use Rattle.search.specs.Kinds.{long, short};
ghost use Rattle.khlongrae.specs.Headers.{flat_header, header_check};

use khlongrae::header::FlatHeader;

#[unsafe(no_mangle)]
pub extern "C" fn khlongrae_header(first: u8, count: u32, j: u32, k: u32) -> FlatHeader
    ensures { result ≡ flat_header (header_check long first count j k) }
{
    khlongrae::header::khlongrae_header(first, count, j, k)
}

#[unsafe(no_mangle)]
pub extern "C" fn khlongrae_header_short(first: u8, count: u32, j: u32, k: u32) -> FlatHeader
    ensures { result ≡ flat_header (header_check short first count j k) }
{
    khlongrae::header::khlongrae_header_short(first, count, j, k)
}
