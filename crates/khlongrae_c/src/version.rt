// The number of this interface.
ghost use Rattle.std.specs.Prelude.{◌≡◌};
ghost use Rattle.khlongrae.specs.Versions.{version_number};

#[unsafe(no_mangle)]
pub extern "C" fn khlongrae_version() -> u32
    ensures { result ≡ version_number }
{
    khlongrae::version::khlongrae_version()
}
