// Numbers in a record, the lowest byte first.
ghost use Rattle.std.specs.Prelude.{◌≤◌};

pub fn word(r: &[u8; 408], at: usize) -> u32
    requires { at ≤ 404 }
{
    u32::from_le_bytes([r[at], r[at + 1], r[at + 2], r[at + 3]])
}

pub fn long_word(r: &[u8; 408], at: usize) -> u64
    requires { at ≤ 400 }
{
    u64::from(word(r, at)) | (u64::from(word(r, at + 4)) << 32)
}
