// What is read off a stream at a bit offset.
ghost use Rattle.std.specs.Prelude.{◌≡◌};
ghost use Rattle.streams.specs.Remainders.{crc_at};
ghost use Rattle.streams.specs.Distances.{distance_at};
ghost use Rattle.probes.specs.Flat.{flat_number, flat_truth, counted_validity};

use probes::bits::FlatNumber;

#[unsafe(no_mangle)]
pub extern "C" fn probe_remainder(bytes: &[u8], offset: usize) -> FlatNumber
    ensures { result ≡ flat_number (crc_at 14 bytes.now offset) }
{
    probes::bits::probe_remainder(bytes, offset)
}

#[unsafe(no_mangle)]
pub extern "C" fn probe_distance(a: &[u8], b: &[u8], offset: usize) -> FlatNumber
    ensures { result ≡ flat_number (distance_at a.now b.now offset) }
{
    probes::bits::probe_distance(a, b, offset)
}

#[unsafe(no_mangle)]
pub extern "C" fn probe_header(bytes: &[u8], offset: usize, count: u32, j: u8, k: u8) -> FlatNumber
    ensures { result ≡ flat_truth (counted_validity bytes.now offset count j k) }
{
    probes::bits::probe_header(bytes, offset, count, j, k)
}
