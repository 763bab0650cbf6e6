// The version of the part, in one number. specs/Versions.antt has the same names.
#![tactic(auto)]

ghost use Rattle.std.specs.Prelude.{◌≡◌};
ghost use Rattle.versions.specs.Versions.{version_number};

const MAJOR: u32 = 0;

const MINOR: u32 = 10;

const PATCH: u32 = 0;

// The version that the archive is built from: a byte for the patch, a byte for the minor version, and the major
// version above them.
pub fn version_number() -> u32
    ensures { result ≡ version_number }
{
    MAJOR * 65536 + MINOR * 256 + PATCH
}
