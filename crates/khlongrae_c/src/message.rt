// A message: its line and its remainder.
ghost use Rattle.std.specs.Prelude.{◌≡◌};
ghost use Rattle.annex10.specs.Remainder.{remainder};
ghost use Rattle.mode_s.specs.Avr.{avr_line};

#[unsafe(no_mangle)]
pub extern "C" fn khlongrae_avr(message: &[u8], line: &mut [u8]) -> u32
    ensures { (result, line.new) ≡ avr_line message.now line.old }
{
    khlongrae::message::khlongrae_avr(message, line)
}

#[unsafe(no_mangle)]
pub extern "C" fn khlongrae_remainder(bytes: &[u8]) -> u32
    ensures { result ≡ remainder bytes.now }
{
    khlongrae::message::khlongrae_remainder(bytes)
}
