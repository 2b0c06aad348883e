// The message of a reading.
ghost use Rattle.std.specs.Prelude.{◌≡◌};
ghost use Rattle.annex10.specs.Repair.{repaired};
ghost use Rattle.place.specs.Agrees.{location_number};
ghost use Rattle.parts.specs.Part.{chosen};
ghost use Rattle.streams.specs.Streams.{message_at};
ghost use Rattle.search.specs.Kinds.{long, short};
ghost use Rattle.receiver.specs.Inner.{Streams, kind_of, padded};

use mode_s::message::{MessageKind, ModeSMessage};
use mode_s::repair::correct_message_bit_errors;
use parts::slicer_part;
use place::location::Location;
use streams::message::{message_from_part, message_from_part_short};

fn long_at<'a>(coherent: &'a [u8], noncoherent: &'a [u8], location: Location) -> [u8; 14]
    requires { Streams long coherent.now noncoherent.now location.place.bit × (location_number 14 location ≡ 0) }
    ensures { result ≡ repaired (message_at (chosen location.slicer coherent.now noncoherent.now) 14 location.place.bit) location.repairs }
{
    let part = slicer_part(MessageKind::Long, coherent, noncoherent, location);
    let mut bytes = message_from_part(part, location.place.bit).unwrap_or([0; 14]);
    let _ = correct_message_bit_errors(&mut bytes, location.repairs);
    bytes
}

fn short_at<'a>(coherent: &'a [u8], noncoherent: &'a [u8], location: Location) -> [u8; 7]
    requires { Streams short coherent.now noncoherent.now location.place.bit × (location_number 7 location ≡ 0) }
    ensures { result ≡ repaired (message_at (chosen location.slicer coherent.now noncoherent.now) 7 location.place.bit) location.repairs }
{
    let part = slicer_part(MessageKind::Short, coherent, noncoherent, location);
    let mut bytes = message_from_part_short(part, location.place.bit).unwrap_or([0; 7]);
    let _ = correct_message_bit_errors(&mut bytes, location.repairs);
    bytes
}

// The named slicer's bits, repaired; a short message has zeros behind it.
pub fn message_from_location<'a>(
    kind: MessageKind,
    coherent: &'a [u8],
    noncoherent: &'a [u8],
    location: Location,
) -> [u8; 14]
    requires { Streams (kind_of kind) coherent.now noncoherent.now location.place.bit × (location_number (kind_of kind).bytes location ≡ 0) }
    ensures { result ≡ padded (kind_of kind) (repaired (message_at (chosen location.slicer coherent.now noncoherent.now) (kind_of kind).bytes location.place.bit) location.repairs) }
{
    match kind {
        MessageKind::Long => long_at(coherent, noncoherent, location),
        MessageKind::Short => ModeSMessage::short(short_at(coherent, noncoherent, location)).bytes,
    }
}
