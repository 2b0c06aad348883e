// A message of either kind: the bytes and their number beside the kind, since an enum holds no array.
ghost use Rattle.std.specs.Prelude.{◌≡◌};
ghost use Rattle.mode_s.specs.Message.{short_message, long_message, num_bits};

pub use annex10::MessageKind;

// Of the bytes only the first `length` count.
#[derive(Clone, Copy, Debug, PartialEq, Eq)]
pub struct ModeSMessage {
    pub kind: MessageKind,
    pub length: usize,
    pub bytes: [u8; 14],
}

impl ModeSMessage {
    pub const SHORT_BYTES: usize = 7;

    pub const LONG_BYTES: usize = 14;

    pub fn short(b: [u8; 7]) -> ModeSMessage
        ensures { result ≡ short_message b }
    {
        let mut bytes = [0; 14];
        bytes[..7].copy_from_slice(&b);
        ModeSMessage {
            kind: MessageKind::Short,
            length: ModeSMessage::SHORT_BYTES,
            bytes,
        }
    }

    pub fn long(b: [u8; 14]) -> ModeSMessage
        ensures { result ≡ long_message b }
    {
        ModeSMessage {
            kind: MessageKind::Long,
            length: ModeSMessage::LONG_BYTES,
            bytes: b,
        }
    }

    pub fn num_bits(self) -> usize
        ensures { result ≡ num_bits self.kind }
    {
        8 * self.kind.bytes()
    }
}
