// The number of this interface.
ghost use Rattle.std.specs.Prelude.{◌≡◌};
ghost use Rattle.khlongrae.specs.Versions.{version_number};

// A caller that was written for another number must not go on: a signature, a length or the meaning of a field has changed.
pub fn khlongrae_version() -> u32
    ensures { result ≡ version_number }
{
    3
}
