// Whole numbers of four and of eight bytes.
ghost use Rattle.std.specs.Prelude.{◌≡◌};
ghost use Rattle.words.specs.Words.{little_endian};

#[tactic(auto, using(crate::proofs::Bytes::word_is))]
pub fn word(b: [u8; 4]) -> u32
    ensures { result ≡ little_endian b }
{
    u32::from_le_bytes(b)
}

#[tactic(auto, using(crate::proofs::Bytes::long_is))]
pub fn long(b: [u8; 8]) -> u64
    ensures { result ≡ little_endian b }
{
    u64::from_le_bytes(b)
}
