// A text grows at its end. A full one stays as it is, so that nothing here can fail; no lines are that long.
ghost use Rattle.std.specs.Prelude.{◌≡◌, [], ◌∷◌};
ghost use Rattle.mode_s.specs.Avr.{hex_text};
ghost use Rattle.listing.specs.Fields.{decimal, hex_word};
ghost use Rattle.listing.specs.Inner.{put_of, puts};

use crate::Text;
use mode_s::avr::{high_digit, low_digit};

impl Text {
    #[tactic(auto, unfolding(crate::specs::Inner::put_of))]
    pub(crate) fn put(&mut self, b: u8)
        ensures { self.new ≡ put_of self.old b }
    {
        if self.length < self.bytes.len() {
            self.bytes[self.length] = b;
            self.length += 1;
        }
    }

    #[tactic(auto, using(crate::proofs::Puts::puts_next), unfolding(crate::specs::Inner::puts))]
    pub(crate) fn put_all(&mut self, bytes: &[u8])
        ensures { self.new ≡ puts self.old bytes.now }
    {
        for &b in bytes {
            self.put(b);
        }
    }

    // A byte as two hex digits.
    #[tactic(auto, using(crate::proofs::Digits::hex_one))]
    pub(crate) fn put_hex(&mut self, b: u8)
        ensures { self.new ≡ puts self.old (hex_text (b ∷ [])) }
    {
        self.put(high_digit(b));
        self.put(low_digit(b));
    }

    // Each byte as two hex digits.
    #[tactic(auto, using(crate::proofs::Digits::hex_next), unfolding(crate::specs::Inner::puts, mode_s::specs::Avr::hex_text))]
    pub(crate) fn put_bytes(&mut self, bytes: &[u8])
        ensures { self.new ≡ puts self.old (hex_text bytes.now) }
    {
        for &b in bytes {
            self.put_hex(b);
        }
    }

    // Eight hex digits.
    #[tactic(auto, using(crate::proofs::Digits::word_bytes))]
    pub(crate) fn put_word(&mut self, n: u32)
        ensures { self.new ≡ puts self.old (hex_word n) }
    {
        self.put_bytes(&n.to_be_bytes());
    }

    // The digits before the last, and the last.
    pub(crate) fn put_decimal(&mut self, n: u64)
        ensures { self.new ≡ puts self.old (decimal n) }
    {
        if n >= 10 {
            self.put_decimal(n / 10);
        }
        self.put(b'0' + (n % 10) as u8);
    }
}
