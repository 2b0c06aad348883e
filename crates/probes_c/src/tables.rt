// The lookups of one and of two wrong bits, and of at most two for many remainders.
ghost use Rattle.std.specs.Prelude.{◌≡◌};
ghost use Rattle.annex10.specs.Repair.{clearing};
ghost use Rattle.repairs.specs.Codes.{codes_up_to_into};
ghost use Rattle.probes.specs.Flat.{flat_found};

use probes::tables::FlatFound;

#[unsafe(no_mangle)]
pub extern "C" fn probe_single(crc: u32) -> FlatFound
    ensures { result ≡ flat_found (clearing 14 1 crc) }
{
    probes::tables::probe_single(crc)
}

#[unsafe(no_mangle)]
pub extern "C" fn probe_double(crc: u32) -> FlatFound
    ensures { result ≡ flat_found (clearing 14 2 crc) }
{
    probes::tables::probe_double(crc)
}

#[unsafe(no_mangle)]
pub extern "C" fn probe_codes(crcs: &[u32], codes: &mut [u32]) -> u32
    ensures { (result, codes.new) ≡ codes_up_to_into 14 2 2 crcs.now codes.old }
{
    probes::tables::probe_codes(crcs, codes)
}
