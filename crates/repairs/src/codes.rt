// The codes of 7 bytes, from those of 14.
ghost use Rattle.std.specs.Prelude.{◌≡◌};
ghost use Rattle.repairs.specs.Inner.{short_code, short_codes};

// What clears 7 bytes, from at most one position that clears 14: 7 zero bytes in front change no remainder, and move each position by 56.
#[tactic(auto, unfolding(crate::specs::Inner::short_code))]
pub fn code_short(code: u32) -> u32
    ensures { result ≡ short_code code }
{
    if code >= 0xffff {
        return code;
    }
    if code < 56 * 256 {
        return 0x10000;
    }
    code - 56 * 256
}

// The same for many.
pub fn shorten(codes: &mut [u32])
    ensures { codes.new ≡ short_codes codes.old }
{
    for code in codes.iter_mut() {
        *code = code_short(*code);
    }
}
