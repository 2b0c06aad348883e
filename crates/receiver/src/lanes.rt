// A lane of the bits by starting sample: its stream, and the first byte of a message in it.
ghost use Rattle.std.specs.Prelude.{◌≡◌, cond, ◌<◌, eqb, length};
ghost use Rattle.annex10.specs.Repair.{count};
ghost use Rattle.parts.specs.Part.{chosen};
ghost use Rattle.scan.specs.Lanes.{lane_bytes, byte_from};

use annex10::repairs_of;
use place::Slicer;
use place::location::Location;
use scan::stream::{find_first_byte, find_stream};

pub fn lane_of(bits: &[u8], lane: usize) -> [u8; 18]
    requires { (length bits.now ≡ 1152) × (lane < 8) }
    ensures { result ≡ lane_bytes bits.now lane }
{
    let mut out = [0; 18];
    let _ = find_stream(bits, lane, &mut out);
    out
}

// The stream of the slicer that a location names.
pub fn named_lane(location: Location, coherent: &[u8], noncoherent: &[u8], lane: usize) -> [u8; 18]
    requires { (length coherent.now ≡ 1152) × (length noncoherent.now ≡ 1152) × (lane < 8) }
    ensures { result ≡ chosen location.slicer (lane_bytes coherent.now lane) (lane_bytes noncoherent.now lane) }
{
    match location.slicer {
        Slicer::Coherent => lane_of(coherent, lane),
        Slicer::Noncoherent => lane_of(noncoherent, lane),
    }
}

// The coherent stream where it is compared with a noncoherent one that is named, which is where two positions are repaired. Elsewhere nobody
// looks at it, and the named one stands in.
pub fn compared_lane(location: Location, named: [u8; 18], coherent: &[u8], lane: usize) -> [u8; 18]
    requires { (length coherent.now ≡ 1152) × (lane < 8) }
    ensures { result ≡ cond (eqb (count location.repairs) 2) (chosen location.slicer named (lane_bytes coherent.now lane)) named }
{
    match location.slicer {
        Slicer::Noncoherent if repairs_of(location.repairs) == 2 => lane_of(coherent, lane),
        _ => named,
    }
}

// The first byte of the message that starts with a sample.
pub fn first_of(bits: &[u8], start: usize) -> u8
    requires { (length bits.now ≡ 1152) × (start < 1096) }
    ensures { result ≡ byte_from bits.now start }
{
    find_first_byte(bits, start).unwrap_or(0)
}
