// The powers of a message at a location.
ghost use Rattle.std.specs.Prelude.{◌≡◌, length};
ghost use Rattle.powers.specs.Powers.{power_of, noise_of};
ghost use Rattle.place.specs.Agrees.{location_number};
ghost use Rattle.parts.specs.Part.{symbols_at, samples_at};
ghost use Rattle.receiver.specs.Inner.{kind_of};

use crate::kinds::{samples_part, symbols_part};
use annex10::MessageKind;
use place::location::Location;
use powers::both::{Powers, postdecode_powers};

// In the pulses, and beside them from the window's samples.
pub fn both_powers(
    kind: MessageKind,
    samples: &[f32],
    row: &[f32],
    location: Location,
    message: &[u8],
) -> Powers
    requires { (length samples.now ≡ 2310) × (length row.now ≡ 576) × (location_number (kind_of kind).bytes location ≡ 0) × (length message.now ≡ (kind_of kind).bytes) }
    ensures { result ≡ record { prompt = power_of (kind_of kind).bytes (symbols_at (kind_of kind).bytes row.now location.place) message.now; noise = noise_of (kind_of kind).bytes (samples_at (kind_of kind).bytes samples.now location.place) message.now } }
{
    let symbols = symbols_part(kind, row, location);
    let beside = samples_part(kind, samples, location);
    postdecode_powers(symbols, beside, message).unwrap_or(Powers {
        prompt: 0.0,
        noise: 0.0,
    })
}
