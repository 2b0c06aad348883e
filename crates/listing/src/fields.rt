// The fields that are more than a number.
ghost use Rattle.std.specs.Prelude.{◌≡◌, ◌∷◌, ◌≤◌, length};
ghost use Rattle.mode_s.specs.Avr.{avr_text};
ghost use Rattle.listing.specs.Fields.{float_text, address_digits, address_text, repairs_text, slicer_text};
ghost use Rattle.listing.specs.Inner.{puts};

use crate::Text;
use annex10::{AddressKind, Repairs};
use mode_s::header::address_kind;
use place::Slicer;
use words::float::bits_of;

impl Text {
    // The bits of a float.
    #[tactic(auto, unfolding(crate::specs::Fields::float_text))]
    pub(crate) fn put_float(&mut self, x: f32)
        ensures { self.new ≡ puts self.old (float_text x) }
    {
        self.put_word(bits_of(x));
    }

    // `*`, the digits, `;`.
    #[tactic(auto, using(crate::proofs::Puts::putting), unfolding(mode_s::specs::Avr::avr_text))]
    pub(crate) fn put_avr(&mut self, message: &[u8])
        ensures { self.new ≡ puts self.old (avr_text message.now) }
    {
        self.put(b'*');
        self.put_bytes(message);
        self.put(b';');
    }

    // A letter and bytes 1 to 3.
    #[tactic(auto, using(crate::proofs::Puts::putting, crate::proofs::Digits::three_bytes))]
    fn put_marked(&mut self, letter: u8, message: &[u8])
        requires { 4 ≤ length message.now }
        ensures { self.new ≡ puts self.old (letter ∷ address_digits message.now) }
    {
        self.put(letter);
        self.put_bytes(&message[1..4]);
    }

    // The kind is that of the message's own first byte: an answer's message is repaired.
    #[tactic(auto, using(crate::proofs::Puts::putting), unfolding(crate::specs::Fields::address_text, crate::specs::Fields::marked))]
    pub(crate) fn put_address(&mut self, message: &[u8])
        requires { 4 ≤ length message.now }
        ensures { self.new ≡ puts self.old (address_text message.now) }
    {
        match address_kind(message[0]) {
            AddressKind::Icao => self.put_marked(b'I', message),
            AddressKind::Other => self.put_marked(b'X', message),
            AddressKind::Flagged => self.put_marked(b'?', message),
            AddressKind::NoAddress => self.put(b'-'),
        }
    }

    // How many, and where.
    #[tactic(auto, using(crate::proofs::Puts::putting, crate::proofs::Lengths::repairs_short), unfolding(crate::specs::Fields::repairs_text))]
    pub(crate) fn put_repairs(&mut self, repairs: Repairs)
        ensures { (self.new ≡ puts self.old (repairs_text repairs)) × (length (repairs_text repairs) ≤ 9) }
    {
        match repairs {
            Repairs::None => self.put(b'0'),
            Repairs::One(j) => {
                self.put_all(b"1:");
                self.put_decimal(u64::from(j));
            }
            Repairs::Two(j, k) => {
                self.put_all(b"2:");
                self.put_decimal(u64::from(j));
                self.put(b',');
                self.put_decimal(u64::from(k));
            }
        }
    }

    #[tactic(auto, using(crate::proofs::Puts::putting), unfolding(crate::specs::Fields::slicer_text))]
    pub(crate) fn put_slicer(&mut self, slicer: Slicer)
        ensures { self.new ≡ puts self.old (slicer_text slicer) }
    {
        match slicer {
            Slicer::Coherent => self.put(b'C'),
            Slicer::Noncoherent => self.put(b'N'),
        }
    }
}
